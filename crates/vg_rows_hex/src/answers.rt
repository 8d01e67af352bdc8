// What is answered to the questions of the table.
use crate::shown::{shown_fault, shown_image};
use avr_isa::Image;
use std::alloc::Global;
use vg_base::{IMAGE_TEXT_LIMIT, NoMemory};
use vg_first_image::image_of;
use vg_first_text::DeviceWrite;
use vg_hex::{HexRefusal, read, write, write_and_read};
use vg_io::MemorySink;
use vg_meaning::Event;
use vg_rows_lines::{TextLine, image_bytes, said, shown_text, spelled};
use vg_script::{EndLine, ScriptFault, put_ending, put_event, read_script};
use vg_sim::{Simulated, simulate_text};

// The bytes of room for the lines of a simulation.
const ROOM: usize = 200;

/// The answer to the question of a line.
pub fn answer_of(alloc: Global, line: TextLine<'_>) -> Result<String, NoMemory> {
    match line.question {
        "line" => trace_line(alloc, line.text),
        "script" => script(alloc, line.text),
        "reads" => reads(alloc, line.text),
        "writes" => writes(alloc, line.text),
        "tail" => tail(alloc, line.word, line.text),
        "again" => again(alloc, line.text),
        "sim" => simulated(alloc, line.word, line.text),
        "image" => image(alloc, line.text),
        _ => said(alloc, "no such question"),
    }
}

// The image that a field spells; None where it spells none.
fn image_in(alloc: Global, field: &str) -> Result<Option<Image>, NoMemory> {
    match image_bytes(alloc, field)? {
        None => Ok(None),
        Some(bytes) => Ok(Some(Image::from_vec(bytes))),
    }
}

fn number(digits: &str) -> Option<u16> {
    u16::from_str_radix(digits, 16).ok()
}

// The line of an event or of an ending.
fn trace_line(alloc: Global, field: &str) -> Result<String, NoMemory> {
    let mut sink = MemorySink::with_room(alloc, 64)?;
    let (name, operands) = field.split_once(' ').unwrap_or((field, ""));
    let put = match event_of(name, operands) {
        Some(event) => put_event(event, &mut sink),
        None => match ending_of(name, operands) {
            Some(ending) => put_ending(ending, &mut sink),
            None => return said(alloc, "no event and no ending"),
        },
    };
    match put {
        Ok(()) => shown_text(alloc, sink.bytes()),
        Err(_) => said(alloc, "a put failed"),
    }
}

fn event_of(name: &str, operands: &str) -> Option<Event> {
    match name {
        "enter" => Some(Event::Enter(operands.parse::<u8>().ok()?)),
        "read" => {
            let (address, value) = two(operands)?;
            Some(Event::Read(byte(address)?, byte(value)?))
        }
        "write" => {
            let (address, value) = two(operands)?;
            Some(Event::Write(byte(address)?, byte(value)?))
        }
        _ => None,
    }
}

fn ending_of(name: &str, operands: &str) -> Option<EndLine> {
    match name {
        "idle" => Some(EndLine::Idle),
        "stop" => Some(EndLine::Stop(operands.parse::<u8>().ok()?)),
        "wants" => Some(EndLine::Wants(byte(number(operands)?)?)),
        "budget" => Some(EndLine::Budget),
        "depth" => Some(EndLine::Depth),
        "bad" => {
            let (pc, word) = two(operands)?;
            Some(EndLine::Bad { pc, word })
        }
        _ => None,
    }
}

fn two(operands: &str) -> Option<(u16, u16)> {
    let (first, second) = operands.split_once(' ')?;
    Some((number(first)?, number(second)?))
}

fn byte(value: u16) -> Option<u8> {
    u8::try_from(value).ok()
}

// The two lists of a script, or its first bad line.
fn script(alloc: Global, field: &str) -> Result<String, NoMemory> {
    let text = spelled(alloc, field)?;
    if text.len() > IMAGE_TEXT_LIMIT {
        return said(alloc, "too long");
    }
    match read_script(alloc, text.as_slice()) {
        Ok(script) => {
            let reads = hex::encode(alloc, script.reads())?;
            let interrupts = hex::encode(alloc, script.interrupts())?;
            let (reads, interrupts) = (reads.as_str(), interrupts.as_str());
            Ok(format!(in alloc; "reads {reads}, interrupts {interrupts}")?)
        }
        Err(ScriptFault::Form(line)) => Ok(format!(in alloc; "form {line}")?),
        Err(ScriptFault::NoMemory) => Err(NoMemory),
    }
}

// The image of a HEX text, or its first fault.
fn reads(alloc: Global, field: &str) -> Result<String, NoMemory> {
    let text = spelled(alloc, field)?;
    if text.len() > IMAGE_TEXT_LIMIT {
        return said(alloc, "too long");
    }
    match read(alloc, text.as_slice()) {
        Ok(image) => shown_image(alloc, &image),
        Err(HexRefusal::Fault(fault)) => shown_fault(alloc, fault),
        Err(HexRefusal::NoMemory) => Err(NoMemory),
    }
}

// The HEX text of an image.
fn writes(alloc: Global, field: &str) -> Result<String, NoMemory> {
    let Some(image) = image_in(alloc, field)? else {
        return said(alloc, "no image");
    };
    let text = write(alloc, &image)?;
    shown_text(alloc, text.as_slice())
}

// How long the HEX text of an image is, and its last bytes.
fn tail(alloc: Global, word: &str, field: &str) -> Result<String, NoMemory> {
    let Some(image) = image_in(alloc, field)? else {
        return said(alloc, "no image");
    };
    let text = write(alloc, &image)?;
    let bytes = text.as_slice();
    let count = bytes.len();
    let kept = word.parse::<usize>().unwrap_or(0);
    let last = match bytes.get(count.saturating_sub(kept)..) {
        Some(last) => shown_text(alloc, last)?,
        None => said(alloc, "")?,
    };
    let last = last.as_str();
    Ok(format!(in alloc; "{count} {last}")?)
}

// An image, written and read again.
fn again(alloc: Global, field: &str) -> Result<String, NoMemory> {
    let Some(image) = image_in(alloc, field)? else {
        return said(alloc, "no image");
    };
    shown_image(alloc, &write_and_read(alloc, &image)?)
}

// The image of no write, and that of one to PORTB and one to PORTF.
fn image(alloc: Global, field: &str) -> Result<String, NoMemory> {
    let portb = DeviceWrite {
        address: 0x38,
        value: 0x05,
    };
    let portf = DeviceWrite {
        address: 0x62,
        value: 0xA5,
    };
    let image = match field {
        "" => image_of(alloc, &[])?,
        "38=05 62=A5" => image_of(alloc, &[portb, portf])?,
        _ => return said(alloc, "no such writes"),
    };
    shown_image(alloc, &image)
}

// The lines of a simulation of a HEX text and, behind a semicolon, a script; and its answer.
fn simulated(alloc: Global, word: &str, field: &str) -> Result<String, NoMemory> {
    let (hex, script) = field.split_once("; ").unwrap_or((field, ""));
    let hex = spelled(alloc, hex)?;
    let script = spelled(alloc, script)?;
    if hex.len() > IMAGE_TEXT_LIMIT || script.len() > IMAGE_TEXT_LIMIT {
        return said(alloc, "too long");
    }
    let mut out = MemorySink::with_room(alloc, ROOM)?;
    let answer = simulate_text(
        alloc,
        hex.as_slice(),
        script.as_slice(),
        word.parse::<u32>().unwrap_or(0),
        &mut out,
    );
    let lines = shown_text(alloc, out.bytes())?;
    let lines = lines.as_str();
    match answer {
        Simulated::Ended(end) => Ok(format!(in alloc; "{lines} {end:?}")?),
        Simulated::WriteFault => Ok(format!(in alloc; "{lines} write fault")?),
        Simulated::HexRefused(fault) => {
            let fault = shown_fault(alloc, fault)?;
            let fault = fault.as_str();
            Ok(format!(in alloc; "{lines} hex {fault}")?)
        }
        Simulated::ScriptRefused(line) => Ok(format!(in alloc; "{lines} script {line}")?),
        Simulated::NoMemory => Err(NoMemory),
    }
}
