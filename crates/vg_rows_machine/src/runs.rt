// Runs of images on scripts. A field has an image, and behind a semicolon a script.
use avr_isa::{Image, PlainMachine};
use avr_sim::Machine;
use std::alloc::Global;
use vg_base::{IMAGE_TEXT_LIMIT, NoMemory};
use vg_io::{Failed, MemorySink};
use vg_rows_lines::{image_bytes, said, shown_text, spelled};
use vg_script::{Script, ScriptFault, put_event, read_script};

// The bytes of room for the lines of a run.
const ROOM: usize = 200;

// The image that a field spells; None where it spells none.
fn image_in(alloc: Global, field: &str) -> Result<Option<Image>, NoMemory> {
    match image_bytes(alloc, field)? {
        None => Ok(None),
        Some(bytes) => Ok(Some(Image::from_vec(bytes))),
    }
}

// The script that a field spells; None where it spells none.
fn script_in(alloc: Global, field: &str) -> Result<Option<Script>, NoMemory> {
    let text = spelled(alloc, field)?;
    if text.len() > IMAGE_TEXT_LIMIT {
        return Ok(None);
    }
    match read_script(alloc, text.as_slice()) {
        Ok(script) => Ok(Some(script)),
        Err(ScriptFault::Form(_)) => Ok(None),
        Err(ScriptFault::NoMemory) => Err(NoMemory),
    }
}

// What stands before a semicolon with a space, and what stands behind them.
fn parts(field: &str) -> (&str, &str) {
    field.split_once("; ").unwrap_or((field, ""))
}

fn budget_of(word: &str) -> u32 {
    word.parse::<u32>().unwrap_or(0)
}

/// The lines of a run and how it has ended, where the simulator and the plain machine say the same.
pub fn run(alloc: Global, word: &str, field: &str) -> Result<String, NoMemory> {
    let (image, script) = parts(field);
    let (Some(image), Some(script)) = (image_in(alloc, image)?, script_in(alloc, script)?) else {
        return said(alloc, "no image or no script");
    };
    let budget = budget_of(word);
    let mut told = MemorySink::with_room(alloc, ROOM)?;
    let Ok(end) = Machine::new(alloc, &image)?.run(&script, budget, &mut told) else {
        return said(alloc, "a put failed");
    };
    let mut plain = PlainMachine::new(alloc, script.reads(), script.interrupts())?;
    plain.run(&image, budget)?;
    let mut seen = MemorySink::with_room(alloc, ROOM)?;
    if put_trace(&plain, &mut seen).is_err()
        || seen.bytes() != told.bytes()
        || plain.ended() != end
    {
        return said(alloc, "the two machines differ");
    }
    let lines = shown_text(alloc, told.bytes())?;
    let lines = lines.as_str();
    Ok(format!(in alloc; "{lines} {end:?}")?)
}

fn put_trace(plain: &PlainMachine<'_>, sink: &mut MemorySink) -> Result<(), Failed> {
    for event in plain.trace() {
        put_event(*event, sink)?;
    }
    Ok(())
}

/// The lowest data address that the stack of a run has reached.
pub fn lowest(alloc: Global, word: &str, field: &str) -> Result<String, NoMemory> {
    let (image, script) = parts(field);
    let (Some(image), Some(script)) = (image_in(alloc, image)?, script_in(alloc, script)?) else {
        return said(alloc, "no image or no script");
    };
    let mut plain = PlainMachine::new(alloc, script.reads(), script.interrupts())?;
    plain.run(&image, budget_of(word))?;
    let lowest = plain.lowest();
    Ok(format!(in alloc; "{lowest:04x}")?)
}

/// What a sink with so much room holds behind a run whose put failed.
pub fn cut(alloc: Global, word: &str, field: &str) -> Result<String, NoMemory> {
    let (image, script) = parts(field);
    let (Some(image), Some(script)) = (image_in(alloc, image)?, script_in(alloc, script)?) else {
        return said(alloc, "no image or no script");
    };
    let mut told = MemorySink::with_room(alloc, word.parse::<usize>().unwrap_or(0))?;
    match Machine::new(alloc, &image)?.run(&script, 100, &mut told) {
        Ok(_) => said(alloc, "no put failed"),
        Err(_) => shown_text(alloc, told.bytes()),
    }
}
