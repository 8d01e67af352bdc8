// The lines of traces.
ghost use Rattle.std.specs.Prelude.{◌≡◌, ◌≤◌, ◌++◌, ◌∷◌, [], ℕ, List, OnOk, OnErr, codes, decimal, length};
ghost use Rattle.vg_io.specs.Count.{Rose};
ghost use Rattle.vg_io.specs.Piece.{AppendsAll, AppendsFront};
ghost use Rattle.vg_script.specs.Traces.{byte_digits, ending_line, event_line, word_digits};

use arrayvec::ArrayString;
use hex::encode_to_slice;
use itoa::Buffer;
use vg_io::{Failed, Sink};
use vg_meaning::Event;

// The bytes of the longest line with a decimal number.
const LONGEST_LINE: usize = 16;

/// How a trace ends.
#[derive(Clone, Copy, Debug, PartialEq, Eq)]
pub enum EndLine {
    /// The program idles, and no interrupt is left.
    Idle,
    /// A stop with this code.
    Stop(u8),
    /// A read of the register at this data address, where no read is left.
    Wants(u8),
    /// As many steps or instructions ran as were allowed.
    Budget,
    /// A limit on active calls was passed.
    Depth,
    /// At this word address stands a word that is no instruction, or an instruction that must not touch what it touches.
    Bad { pc: u16, word: u16 },
}

/// Puts the line of an event, in one put and without memory: `r AA VV`, `w AA VV` or `i K`.
pub fn put_event<O: Sink>(event: Event, sink: &mut O) -> Result<(), Failed>
    ensures ok { OnOk result (AppendsAll (O.told sink.old) (O.told sink.new) (event_line event)) }
    ensures failed { OnErr result (AppendsFront (O.told sink.old) (O.told sink.new) (event_line event)) }
    ensures later { O.faults sink.old ≤ O.faults sink.new }
    ensures cause { OnErr result (Rose (O.faults sink.old) (O.faults sink.new)) }
{
    match event {
        Event::Read(address, value) => sink.put(&device_line(b'r', address, value)),
        Event::Write(address, value) => sink.put(&device_line(b'w', address, value)),
        Event::Enter(vector) => sink.put(numbered_line("i ", vector).as_bytes()),
    }
}

/// Puts the line of an ending, in one put and without memory: `idle`, `stop N`, `wants AA`, `budget`, `depth` or `bad PPPP WWWW`.
pub fn put_ending<O: Sink>(ending: EndLine, sink: &mut O) -> Result<(), Failed>
    ensures ok { OnOk result (AppendsAll (O.told sink.old) (O.told sink.new) (ending_line ending)) }
    ensures failed { OnErr result (AppendsFront (O.told sink.old) (O.told sink.new) (ending_line ending)) }
    ensures later { O.faults sink.old ≤ O.faults sink.new }
    ensures cause { OnErr result (Rose (O.faults sink.old) (O.faults sink.new)) }
{
    match ending {
        EndLine::Idle => sink.put(b"idle\n"),
        EndLine::Stop(code) => sink.put(numbered_line("stop ", code).as_bytes()),
        EndLine::Wants(address) => sink.put(&wants_line(address)),
        EndLine::Budget => sink.put(b"budget\n"),
        EndLine::Depth => sink.put(b"depth\n"),
        EndLine::Bad { pc, word } => sink.put(&bad_line(pc, word)),
    }
}

// What it says, and then a number.
fn numbered_line(says: &str, number: u8) -> ArrayString<LONGEST_LINE>
    requires { length says.now ≤ 8 }
    ensures { result.bytes ≡ says.now ++ decimal number ++ codes "\n" }
{
    let mut line = ArrayString::new();
    line.push_str(says);
    line.push_str(Buffer::new().format(number));
    line.push_str("\n");
    line
}

// A letter, an address and a value.
fn device_line(letter: u8, address: u8, value: u8) -> [u8; 8]
    ensures { result ≡ letter ∷ 32 ∷ [] ++ byte_digits address ++ codes " " ++ byte_digits value ++ codes "\n" }
{
    let a = byte_digits(address);
    let v = byte_digits(value);
    [letter, b' ', a[0], a[1], b' ', v[0], v[1], b'\n']
}

// The line of a Wants.
fn wants_line(address: u8) -> [u8; 9]
    ensures { result ≡ codes "wants " ++ byte_digits address ++ codes "\n" }
{
    let a = byte_digits(address);
    [b'w', b'a', b'n', b't', b's', b' ', a[0], a[1], b'\n']
}

// The line of a Bad.
fn bad_line(pc: u16, word: u16) -> [u8; 14]
    ensures { result ≡ codes "bad " ++ word_digits pc ++ codes " " ++ word_digits word ++ codes "\n" }
{
    let p = word_digits(pc);
    let w = word_digits(word);
    [
        b'b', b'a', b'd', b' ', p[0], p[1], p[2], p[3], b' ', w[0], w[1], w[2], w[3], b'\n',
    ]
}

// The two digits of a byte.
fn byte_digits(byte: u8) -> [u8; 2]
    ensures { result ≡ byte_digits byte }
{
    let mut digits = [0u8; 2];
    match encode_to_slice([byte], &mut digits) {
        Ok(()) => digits,
        Err(_) => unreachable!(),
    }
}

// The four digits of a word.
fn word_digits(word: u16) -> [u8; 4]
    ensures { result ≡ word_digits word }
{
    let mut digits = [0u8; 4];
    match encode_to_slice([(word / 256) as u8, (word % 256) as u8], &mut digits) {
        Ok(()) => digits,
        Err(_) => unreachable!(),
    }
}
