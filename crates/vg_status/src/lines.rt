// The line that says why nothing was built or run.
ghost use Rattle.std.specs.Prelude.{◌≡◌, ◌++◌, ◌∷◌, [], ◌<◌, ◌≤◌, ℕ, decimal, codes, length, slice_index};
ghost use Rattle.hex.specs.Hex.{lower_digits};
ghost use Rattle.vg_script.specs.Traces.{byte_digits};
ghost use Rattle.vg_faults.specs.Living.{place_text};
ghost use Rattle.vg_status.specs.Lines.{IsMade, IsMadeOf, fault_line, hex_line, line_bytes, refusal_line, what_text};

use crate::status::Status;
use arrayvec::ArrayString;
use itoa::Buffer;
use vg_base::Place;
use vg_faults::Fault;
use vg_hex::HexFault;
use vg_rules::what::What;

/// The bytes of the longest fault line, or more: a place has two numbers of at most ten digits, a rule's number at most three, and a number of bytes at
/// most twenty.
pub const LONGEST_LINE: usize = 48;

/// A fault line: one that was made, or one that a fault has.
#[derive(Drop)]
pub enum FaultLine<'a> {
    Made(ArrayString<LONGEST_LINE>),
    Held(&'a [u8]),
}

impl FaultLine<'_> {
    /// The bytes of the line.
    pub fn as_bytes(&self) -> &[u8]
        ensures { result.now ≡ line_bytes self.now }
    {
        match self {
            FaultLine::Made(line) => line.as_str().as_bytes(),
            FaultLine::Held(line) => line,
        }
    }
}

/// The fault line of an answer, with its line end. It takes no memory.
pub fn fault_line(status: &Status) -> FaultLine<'_>
    ensures { line_bytes result ≡ fault_line status.entry.now }
{
    match status {
        Status::Refused(Fault::Allocates { line, .. }) => FaultLine::Held(line.as_slice()),
        _ => FaultLine::Made(made_line(status)),
    }
}

// The fault line of an answer that has no line of its own.
fn made_line(status: &Status) -> ArrayString<LONGEST_LINE>
    requires { IsMade status.now }
    ensures { result.bytes ≡ fault_line status.now }
{
    let mut line = ArrayString::new();
    match status {
        Status::Refused(fault) => return refusal_line(fault),
        Status::HexRefused(fault) => return hex_line(fault),
        Status::ScriptRefused(number) => return numbered_line("script form ", *number),
        Status::Usage => line.push_str("usage\n"),
        Status::ReadFault => line.push_str("read fault\n"),
        Status::WriteFault => line.push_str("write fault\n"),
        Status::NoMemory => line.push_str("no memory\n"),
        Status::TooLong => line.push_str("too long\n"),
        Status::Done
        | Status::Stopped(_)
        | Status::Wants(_)
        | Status::Budget
        | Status::Depth
        | Status::BadInstruction { .. } => {}
    }
    line
}

fn refusal_line(fault: &Fault) -> ArrayString<LONGEST_LINE>
    requires { IsMadeOf fault.now }
    ensures { result.bytes ≡ refusal_line fault.now }
{
    match fault {
        Fault::NoTree(place) => placed_line("no tree at ", *place),
        Fault::TooDeep(place) => placed_line("too deep at ", *place),
        Fault::TooMany { what, .. } => too_many_line(*what),
        Fault::Broken { rule, place } => broken_line(*rule, *place),
        Fault::InitTrap { code, place } => init_stop_line(*code, *place),
        Fault::InitSteps => plain_line("init steps\n"),
        Fault::InitDepth => plain_line("init depth\n"),
        Fault::InitTouches(address) => touches_line(*address),
        Fault::InitTooBig => plain_line("init too big\n"),
        Fault::Allocates { .. } => unreachable!(),
        Fault::StaticFull { need } => full_line("static full ", *need),
        Fault::TableFull { need } => full_line("table full ", *need),
        Fault::StackFull { need, left } => stack_full_line(*need, *left),
        Fault::CodeFull { words } => numbered_line("code full ", *words),
        Fault::NoMember => plain_line("no member\n"),
        Fault::NotBuilt(place) => placed_line("not built at ", *place),
    }
}

fn too_many_line(what: What) -> ArrayString<LONGEST_LINE>
    ensures { result.bytes ≡ codes "too many " ++ what_text what ++ codes "\n" }
{
    let mut line = ArrayString::new();
    line.push_str("too many ");
    line.push_str(match what {
        What::Classes => "classes",
        What::Methods => "methods",
        What::Locals => "locals",
        What::Height => "height",
    });
    line.push_str("\n");
    line
}

fn broken_line(rule: u8, place: Place) -> ArrayString<LONGEST_LINE>
    ensures { result.bytes ≡ codes "rule " ++ decimal rule ++ codes " broken at " ++ place_text place ++ codes "\n" }
{
    let mut line = ArrayString::new();
    line.push_str("rule ");
    line.push_str(Buffer::new().format(rule));
    line.push_str(" broken at ");
    line.push_str(Buffer::new().format(place.line));
    line.push_str(":");
    line.push_str(Buffer::new().format(place.col));
    line.push_str("\n");
    line
}

fn init_stop_line(code: u8, place: Place) -> ArrayString<LONGEST_LINE>
    ensures { result.bytes ≡ codes "init stop " ++ decimal code ++ codes " at " ++ place_text place ++ codes "\n" }
{
    let mut line = ArrayString::new();
    line.push_str("init stop ");
    line.push_str(Buffer::new().format(code));
    line.push_str(" at ");
    line.push_str(Buffer::new().format(place.line));
    line.push_str(":");
    line.push_str(Buffer::new().format(place.col));
    line.push_str("\n");
    line
}

#[tactic(auto, unfolding(hex::specs::Hex::encode_with))]
fn touches_line(address: u8) -> ArrayString<LONGEST_LINE>
    ensures { result.bytes ≡ codes "init touches " ++ byte_digits address ++ codes "\n" }
{
    let mut line = ArrayString::new();
    line.push_str("init touches ");
    line.push_str(hex_digit(address / 16));
    line.push_str(hex_digit(address % 16));
    line.push_str("\n");
    line
}

// A hexadecimal digit, in lower case.
fn hex_digit(value: u8) -> &'static str
    requires { value < 16 }
    ensures digit { result.now ≡ slice_index lower_digits value ∷ [] }
    ensures short { length result.now ≡ 1 }
{
    match value {
        0 => "0",
        1 => "1",
        2 => "2",
        3 => "3",
        4 => "4",
        5 => "5",
        6 => "6",
        7 => "7",
        8 => "8",
        9 => "9",
        10 => "a",
        11 => "b",
        12 => "c",
        13 => "d",
        14 => "e",
        _ => "f",
    }
}

// A line that says the same in each case.
fn plain_line(says: &str) -> ArrayString<LONGEST_LINE>
    requires { length says.now ≤ 16 }
    ensures { result.bytes ≡ says.now }
{
    let mut line = ArrayString::new();
    line.push_str(says);
    line
}

fn hex_line(fault: &HexFault) -> ArrayString<LONGEST_LINE>
    ensures { result.bytes ≡ hex_line fault.now }
{
    match fault {
        HexFault::Form(line) => numbered_line("hex form ", *line),
        HexFault::Sum(line) => numbered_line("hex sum ", *line),
        HexFault::Twice(address) => numbered_line("hex twice ", *address),
        HexFault::Beyond(address) => numbered_line("hex beyond ", *address),
        HexFault::NoEnd => {
            let mut line = ArrayString::new();
            line.push_str("hex no end\n");
            line
        }
    }
}

// What it says, and then a place.
fn placed_line(says: &str, place: Place) -> ArrayString<LONGEST_LINE>
    requires { length says.now ≤ 16 }
    ensures { result.bytes ≡ says.now ++ place_text place ++ codes "\n" }
{
    let mut line = ArrayString::new();
    line.push_str(says);
    line.push_str(Buffer::new().format(place.line));
    line.push_str(":");
    line.push_str(Buffer::new().format(place.col));
    line.push_str("\n");
    line
}

// What it says, and then a number of bytes.
fn full_line(says: &str, need: u64) -> ArrayString<LONGEST_LINE>
    requires { length says.now ≤ 16 }
    ensures { result.bytes ≡ says.now ++ decimal need ++ codes "\n" }
{
    let mut line = ArrayString::new();
    line.push_str(says);
    line.push_str(Buffer::new().format(need));
    line.push_str("\n");
    line
}

// The bytes of stack that are needed, and those that are left.
fn stack_full_line(need: u32, left: u32) -> ArrayString<LONGEST_LINE>
    ensures { result.bytes ≡ codes "stack full " ++ decimal need ++ codes " " ++ decimal left ++ codes "\n" }
{
    let mut line = ArrayString::new();
    line.push_str("stack full ");
    line.push_str(Buffer::new().format(need));
    line.push_str(" ");
    line.push_str(Buffer::new().format(left));
    line.push_str("\n");
    line
}

// What it says, and then a number.
fn numbered_line(says: &str, number: u32) -> ArrayString<LONGEST_LINE>
    requires { length says.now ≤ 16 }
    ensures { result.bytes ≡ says.now ++ decimal number ++ codes "\n" }
{
    let mut line = ArrayString::new();
    line.push_str(says);
    line.push_str(Buffer::new().format(number));
    line.push_str("\n");
    line
}
