// Why a source text is refused.
use vg_base::{Place, Row};
use vg_rules::what::What;

/// Why a source text was refused. Where it has several faults, the first of these is named.
#[derive(Drop)]
pub enum Fault {
    /// The token at this place, or the end, is the first that no text of the language has there.
    NoTree(Place),
    /// The bracket at this place is the first that is a 65th open one, in a text that could still go on.
    TooDeep(Place),
    /// There are more of these than the limit. The declaration at the place is the first that passes it, or whose own number does.
    TooMany {
        what: What,
        limit: u32,
        place: Place,
    },
    /// The node at this place breaks the rule of this number, from 1 to 25, and is the first that breaks one.
    Broken {
        rule: u8,
        place: Place,
    },
    /// Initialisation stops by the exception of this code, at the node at this place.
    InitTrap {
        code: u8,
        place: Place,
    },
    /// Initialisation needs a tick when its clock is spent.
    InitSteps,
    /// Initialisation opens a 401st active call.
    InitDepth,
    /// Initialisation reads or writes the device register at this data address.
    InitTouches(u8),
    /// Initialisation stores a 60,001st value.
    InitTooBig,
    /// A live method would make an object or an array: the place is that of the first `new` in the first such method of the text. The line
    /// names the method and the place, and has its line end.
    Allocates {
        place: Place,
        line: Row<u8>,
    },
    /// The live fields and the elements of live arrays need more than the 4,096 bytes of RAM: so many.
    StaticFull {
        need: u64,
    },
    /// The tables need more than 60,000 bytes of flash: so many.
    TableFull {
        need: u64,
    },
    /// The stack has no room in RAM above the static bytes: so many bytes are needed, those that are asked for, or 64 where none are, and so many are left.
    StackFull {
        need: u32,
        left: u32,
    },
    /// The image would take so many words of flash, which are more than 65,535: the last word stays free.
    CodeFull {
        words: u32,
    },
    /// No class or component of the text declares the member that is asked for.
    NoMember,
    /// The text is a legal one that starts, that allocates nothing, that fits and whose stack has room, and no image is made of it. The place is the first one of
    /// the text: line 1, column 1.
    NotBuilt(Place),
}
