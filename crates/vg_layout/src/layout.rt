// The layout of an image.
use vg_base::Row;

/// How an image uses SRAM, which stands at the data addresses from 0x0100 to 0x10FF, and the flash.
///
/// Names are texts: of a class, or of a class or component and what it declares, with a point between them.
pub struct Layout {
    /// The bytes of the static area, which begins at 0x0100.
    pub static_bytes: u16,
    /// The data address that the stack reaches at its lowest.
    pub floor: u16,
    /// The bytes of the stack, from the floor on.
    pub stack: u16,
    /// How many of them are enough for each run.
    pub bound: Bound,
    /// The word address of the SLEEP at which the program waits for interrupts.
    pub idle: u16,
    /// The areas of columns, those in RAM first, each by ascending addresses.
    pub areas: Row<Area>,
    /// The classes that have live objects of their own, in order of the text.
    pub objects: Row<Kept>,
    /// The live fields and methods, in order of the text.
    pub live: Row<Row<u8>>,
    /// The pieces of code, by ascending addresses.
    pub pieces: Row<Piece>,
}

impl Drop for Layout {
    // By hand: a function that may drop one calls this, where it would have a copy of a derived one.
    fn drop(self) {
        let Layout {
            static_bytes: _,
            floor: _,
            stack: _,
            bound: _,
            idle: _,
            areas: _,
            objects: _,
            live: _,
            pieces: _,
        } = self;
    }
}

/// How much stack is enough.
#[derive(Drop)]
pub enum Bound {
    /// So many bytes, for each run.
    Bytes(u32),
    /// None: each of these methods may call the next one, and the last one the first.
    Cycle(Row<Row<u8>>),
}

/// Bytes that stand side by side in RAM or in flash.
#[derive(Drop)]
pub struct Area {
    pub is_ram: bool,
    /// Where they begin: in RAM a data address, in flash a byte address.
    pub at: u16,
    pub bytes: u32,
    /// What they hold: the name of a field, the type of arrays, `table` and such a type, or `static`.
    pub what: Row<u8>,
}

/// A class, and how many live objects of its own it has.
#[derive(Drop)]
pub struct Kept {
    pub class: Row<u8>,
    pub count: u32,
}

/// A piece of code.
#[derive(Drop)]
pub struct Piece {
    /// The word address at which it begins.
    pub word: u16,
    pub words: u32,
    /// The name of a method or of a routine; `call` and the names of a class and a method, for what calls by dispatch look up; `start`, or `idle`.
    pub name: Row<u8>,
}
