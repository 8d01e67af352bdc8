// Procedures.
use crate::code::Code;
use vg_base::Row;

/// A procedure: a method as code over numbers.
#[derive(Drop)]
pub struct Procedure {
    /// The method's number in the order of the text.
    pub method: u16,
    /// How many parameters it has.
    pub params: u8,
    /// Whether it gets a receiver: a method of a class does, and one of which delegates are made.
    pub receives: bool,
    /// Whether it is called on objects alone: a method of a class is.
    pub on_objects: bool,
    /// The widths of its locals in bytes; the parameters come first.
    pub widths: Row<u8>,
    /// The width of its result, 0 where it has none.
    pub result: u8,
    /// The procedures that it may call.
    pub calls: Row<u16>,
    pub body: Code,
}
