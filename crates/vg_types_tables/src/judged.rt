// What the functions of the checker answer of code that keeps the rules.
use vg_base::Name;
use vg_core::{Code, CoreType, Step};

/// What a primary or a suffix leaves for the suffix behind it.
#[derive(Clone, Copy, Debug, PartialEq, Eq)]
pub enum Head {
    Nothing,
    /// A value waits.
    Value(CoreType),
    Component(u16),
    /// A device, by its name.
    Device(Name),
    /// A method of the object that waits: the node, the static class, and the method that is found there.
    OwnMethod(u32, u16, u16),
    /// A method of a component.
    ItsMethod(u16),
}

/// A whole expression.
#[derive(Drop)]
pub struct Judged {
    pub type_: CoreType,
    pub code: Code,
    /// The number of the node behind it.
    pub next: u32,
}

/// A primary, a suffix, or a row of them.
#[derive(Drop)]
pub struct Standing {
    pub head: Head,
    pub code: Code,
    /// The number of the node behind it.
    pub next: u32,
}

/// A place that can be assigned: what is done before the right side, and the store behind it.
#[derive(Drop)]
pub struct Storing {
    pub aims: Code,
    pub store: Step,
    pub type_: CoreType,
}

/// The target of an assignment; what is no place stores nothing.
#[derive(Drop)]
pub struct Aimed {
    pub place: Option<Storing>,
    /// The number of the node behind it.
    pub next: u32,
}

/// A statement, or a row of them.
#[derive(Drop)]
pub struct Done {
    pub code: Code,
    /// The number of the node behind it.
    pub next: u32,
}
