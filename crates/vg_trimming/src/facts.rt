// What is known at a place of code.
use vg_base::Row;
use vg_lin::{Operand, Operator};

/// A local of the older code, and where its value stands in the newer code.
#[derive(Clone, Copy)]
pub struct Twin {
    /// The local of the older code.
    pub local: u8,
    /// The local of the newer code that has the same value, or the value itself.
    pub home: Operand,
}

/// A computation of the older code, and where the newer code has what it gives.
#[derive(Clone, Copy)]
pub struct Worked {
    pub operator: Operator,
    /// How many bytes it sees of its operands and gives.
    pub width: u8,
    /// Its operands, in the older code.
    pub left: Operand,
    pub right: Operand,
    /// The local of the newer code that has all of the result.
    pub home: u8,
}

/// The most that a local of the older code has, where it has a value.
#[derive(Clone, Copy)]
pub struct Bound {
    pub local: u8,
    pub most: u32,
}

/// What is known at a place, whenever a run comes there.
#[derive(Drop)]
pub struct Facts {
    /// Whether a run may come there.
    pub reached: bool,
    /// Where values of the older code stand in the newer code.
    pub twins: Row<Twin>,
    /// Locals of the older code that are not 0.
    pub filled: Row<u8>,
    /// What the newer code has of computations, of the values that the older code's locals have.
    pub worked: Row<Worked>,
    /// How much locals of the older code have at most. Where nothing is said, it is what their bytes hold.
    pub bounds: Row<Bound>,
}

/// Where the newer code has the new value of a local of the older code.
#[derive(Clone, Copy)]
pub enum Gain {
    /// Nowhere.
    Nothing,
    /// In this local.
    In(u8),
    /// Where it had the value of this operand, as far as so many bytes hold it.
    Copied(Operand, u8),
}

/// What an instruction changes.
#[derive(Clone, Copy)]
pub struct Change {
    /// The local of the older code that gets a value.
    pub old: Option<u8>,
    /// The local of the newer code that gets one.
    pub new: Option<u8>,
    /// Where the newer code then has the value of the former.
    pub gain: Gain,
    /// A local of the older code that is not 0 then.
    pub filled: Option<u8>,
    /// A computation of which the newer code then has the result.
    pub worked: Option<Worked>,
    /// The most that the local of the older code has then.
    pub most: u32,
}

/// What a branch of the older code tells, on one of its two ways.
#[derive(Clone, Copy)]
pub struct Learned {
    /// A local that is not 0.
    pub filled: Option<u8>,
    /// The most that a local has.
    pub bound: Option<Bound>,
}

/// On a walk through the older code: the local that got a known number last.
#[derive(Clone, Copy)]
pub struct Met {
    pub local: u8,
    pub number: u32,
}

/// On a walk through the older code: the locals that got known numbers, at most two.
#[derive(Clone, Copy)]
pub struct Sets {
    pub first: Option<u8>,
    pub second: Option<u8>,
}
