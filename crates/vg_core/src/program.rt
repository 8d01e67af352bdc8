// Programs.
use crate::code::Code;
use crate::types::CoreType;
use vg_base::{Name, Row};

/// Who declares a member.
#[derive(Clone, Copy, Debug, PartialEq, Eq)]
pub enum Owner {
    InClass(u16),
    InComponent(u16),
}

/// What can be called.
#[derive(Clone, Copy, Debug, PartialEq, Eq)]
pub enum Target {
    /// A method.
    Run(u16),
    /// The construction of a class.
    Construct(u16),
    /// The initialisation of a component.
    Start(u16),
}

/// A field of a class or of a component.
#[derive(Clone, Copy, Debug, PartialEq, Eq)]
pub struct Field {
    pub name: Name,
    pub owner: Owner,
    pub type_: CoreType,
    /// Its place among the values of each object that has it, or among those of all components.
    pub slot: u32,
}

/// A method of a class or of a component.
#[derive(Drop)]
pub struct Method {
    pub name: Name,
    pub owner: Owner,
    /// Methods of one name have one selector.
    pub selector: u16,
    /// The number of its function type.
    pub function: u32,
    pub params: Row<CoreType>,
    pub result: CoreType,
    /// The statements and expressions of its body.
    pub nodes: u32,
}

/// A class.
pub struct Class {
    pub name: Name,
    /// Itself and all above it, the nearest first.
    pub above: Row<u16>,
    /// The fields of its objects, those of the highest class first.
    pub fields: Row<u32>,
    /// The methods that its objects have, the nearest first.
    pub methods: Row<u16>,
    /// The types of the parameters of its construction.
    pub params: Row<CoreType>,
}

impl Drop for Class {
    // By hand: a function that may drop one calls this, where it would have a copy of a derived one.
    fn drop(self) {
        let Class {
            name: _,
            above: _,
            fields: _,
            methods: _,
            params: _,
        } = self;
    }
}

/// All of a program but its bodies. Each list is in order of the text.
pub struct Tables {
    pub classes: Row<Class>,
    pub components: Row<Name>,
    pub fields: Row<Field>,
    /// The fields of components.
    pub globals: Row<u32>,
    pub methods: Row<Method>,
    /// All that can be called: behind each class or component its methods.
    pub targets: Row<Target>,
    pub types: Row<CoreType>,
    pub literals: Row<Row<u8>>,
    /// The number of the type of the elements of literals.
    pub char_type: u32,
}

impl Drop for Tables {
    // By hand: a function that may drop one calls this, where it would have a copy of a derived one.
    fn drop(self) {
        let Tables {
            classes: _,
            components: _,
            fields: _,
            globals: _,
            methods: _,
            targets: _,
            types: _,
            literals: _,
            char_type: _,
        } = self;
    }
}

/// A body: the types of its locals behind the parameters, and its code.
#[derive(Drop)]
pub struct Body {
    pub others: Row<CoreType>,
    pub code: Code,
}

/// A handler of an interrupt.
#[derive(Clone, Copy, Debug, PartialEq, Eq)]
pub struct Handler {
    pub vector: u8,
    pub method: u16,
}

/// A whole program.
pub struct Program {
    pub tables: Tables,
    /// The bodies of the methods, in their order.
    pub methods: Row<Body>,
    /// The constructions of the classes.
    pub makings: Row<Body>,
    /// The initialisations of the components.
    pub starts: Row<Body>,
    pub main: u16,
    pub handlers: Row<Handler>,
}

impl Drop for Program {
    // By hand: a function that may drop one calls this, where it would have a copy of a derived one.
    fn drop(self) {
        let Program {
            tables: _,
            methods: _,
            makings: _,
            starts: _,
            main: _,
            handlers: _,
        } = self;
    }
}
