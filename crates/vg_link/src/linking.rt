// Linking.
ghost use Rattle.std.specs.Prelude.{◌≡◌, ◌*◌, ◌<◌, ◌++◌, length, IfOk};
ghost use Rattle.vg_image.specs.Image.{first_table};
ghost use Rattle.vg_followed.specs.Reset.{reset_code};
ghost use Rattle.vg_templates.specs.Idle.{idle_piece};
ghost use Rattle.vg_put_programs.specs.Programs.{emission, pieces_upto};
ghost use Rattle.vg_laid.specs.Laid.{stubs_code};
ghost use Rattle.vg_link.specs.Linking.{CanBeLinked, IsLinked, IsRefusedFor, first_of, laid_by, end_by};
ghost use Rattle.vg_link.specs.Linking.{far_of, far_entries, laid_of, idle_of, stubs_of, words_laid};

use crate::linked::{CodeFull, Linked};
use crate::reset::{put_idle, put_reset};
use crate::stubs::{put_stubs, slots, stubs_of, word_behind_stubs};
use crate::tables::{table_bytes, word_behind_tables};
use crate::unlinked::Unlinked;
use avr_instr::Instr;
use std::alloc::Global;
use vg_base::{NoMemory, Refusal, Row};
use vg_image::flash;
use vg_put_procedures::words::behind_code;
use vg_put_programs::{Laid, Placed, codes_of, entries_of, put_programs};

// The word address at which the start procedure stands.
fn first_word(unlinked: &Unlinked, reset: &[Instr]) -> Result<u32, NoMemory>
    requires can { CanBeLinked unlinked.now }
    requires reset { reset.now ≡ reset_code unlinked.now.static_bytes first_table }
    ensures { IfOk result (λ first. first ≡ first_of unlinked.now) }
{
    behind_code(word_behind_tables(unlinked.tables.len()), reset)
}

// Where all procedures stand, where their instructions lead as far off as they would if they stood where it is guessed, and had these entries: what they take
// does not depend on where they lead.
fn lay(
    alloc: Global,
    unlinked: &Unlinked,
    first: u32,
    guess: &[Placed],
    entries: &[u32],
) -> Result<Laid, NoMemory>
    requires can { CanBeLinked unlinked.now }
    requires first { first ≡ first_of unlinked.now }
    ensures placed { IfOk result (λ laid. laid.placed ≡ laid_by unlinked.now guess.now entries.now) }
    ensures end { IfOk result (λ laid. laid.end ≡ end_by unlinked.now guess.now entries.now) }
{
    let procedures = unlinked.procedures.as_slice();
    let dispatches = unlinked.dispatches.as_slice();
    let mut code = Row::new(alloc);
    put_programs(
        alloc,
        &mut code,
        procedures,
        unlinked.start,
        dispatches,
        guess,
        entries,
        &[],
        &[],
        0,
        first,
    )
}

// The entries of all procedures, where they stand with far jumps, branches and calls alone.
fn far_entries(alloc: Global, unlinked: &Unlinked, far: &[Placed]) -> Result<Row<u32>, NoMemory>
    requires can { CanBeLinked unlinked.now }
    requires far { far.now ≡ far_of unlinked.now }
    ensures { IfOk result (λ entries. entries ≡ far_entries unlinked.now) }
{
    let count = unlinked.procedures.len();
    entries_of(alloc, far, unlinked.start, count)
}

// How many words the image takes.
fn words_taken(unlinked: &Unlinked, laid: &Laid, stubs: &[u16]) -> Result<u32, NoMemory>
    requires end { laid.now.end ≡ idle_of unlinked.now }
    requires stubs { stubs.now ≡ stubs_of unlinked.now.handlers }
    ensures { IfOk result (λ words. words ≡ words_laid unlinked.now) }
{
    word_behind_stubs(laid.end, stubs.len())
}

// All code: that of reset, of all procedures, which stand at known places, of the piece in which the program waits, and of the stubs.
fn whole_code(
    alloc: Global,
    unlinked: &Unlinked,
    reset: Row<Instr>,
    far: &[Placed],
    entries: &[u32],
    placed: &[Placed],
    codes: &[u16],
    idle: u16,
    first: u32,
    stubs: &[u16],
) -> Result<Row<Instr>, NoMemory>
    requires { CanBeLinked unlinked.now }
    ensures { IfOk result (λ code. code ≡ ((reset ++ pieces_upto
        (emission unlinked.now.procedures unlinked.now.start unlinked.now.dispatches far.now entries.now placed.now codes.now idle)
        (length unlinked.now.procedures)) ++ idle_piece) ++ stubs_code codes.now stubs.now) }
{
    let procedures = unlinked.procedures.as_slice();
    let dispatches = unlinked.dispatches.as_slice();
    let mut code = reset;
    put_programs(
        alloc,
        &mut code,
        procedures,
        unlinked.start,
        dispatches,
        far,
        entries,
        placed,
        codes,
        idle,
        first,
    )?;
    put_idle(&mut code)?;
    put_stubs(&mut code, codes, stubs)?;
    Ok(code)
}

// The image, where the code of reset is put, and all procedures are laid behind it.
fn linked(
    alloc: Global,
    unlinked: &Unlinked,
    reset: Row<Instr>,
    first: u32,
    far: &[Placed],
    entries: &[u32],
    laid: &Laid,
    stubs: &[u16],
) -> Result<Linked, NoMemory>
    requires can { CanBeLinked unlinked.now }
    requires reset { reset ≡ reset_code unlinked.now.static_bytes first_table }
    requires far { far.now ≡ far_of unlinked.now }
    requires entries { entries.now ≡ far_entries unlinked.now }
    requires placed { laid.now.placed ≡ laid_of unlinked.now }
    requires end { laid.now.end ≡ idle_of unlinked.now }
    requires stubs { stubs.now ≡ stubs_of unlinked.now.handlers }
    requires room { words_laid unlinked.now < 65536 }
    ensures linked { IfOk result (λ linked. IsLinked unlinked.now linked) }
    ensures size { IfOk result (λ linked. length linked.flash ≡ 2 * words_laid unlinked.now) }
{
    let count = unlinked.procedures.len();
    let placed = laid.placed.as_slice();
    let idle = laid.end as u16;
    let codes = codes_of(alloc, placed, unlinked.start, count)?;
    let known = codes.as_slice();
    let code = whole_code(
        alloc, unlinked, reset, far, entries, placed, known, idle, first, stubs,
    )?;
    let slots = slots(alloc, unlinked.handlers.as_slice(), stubs, idle + 4)?;
    let tables = table_bytes(alloc, known, unlinked.tables.as_slice())?;
    let bytes = flash(alloc, slots.as_slice(), tables.as_slice(), code.as_slice())?;
    Ok(Linked {
        flash: Row::from_vec(bytes),
        codes,
        idle,
    })
}

/// The image of a program: vectors, tables, and the code of reset, of all procedures from the start procedure on, of the piece in which the program waits for
/// interrupts, and of the stubs of handlers. Jumps, branches and calls are near ones where they would reach if all of them were far ones.
///
/// It refuses a program exactly where these take more than 65,535 words of flash, and says how many; else want of memory is the only error.
pub fn link(alloc: Global, unlinked: &Unlinked) -> Result<Linked, Refusal<CodeFull>>
    requires { CanBeLinked unlinked.now }
    ensures linked { IfOk result (λ linked. IsLinked unlinked.now linked) }
    ensures size { IfOk result (λ linked. length linked.flash ≡ 2 * words_laid unlinked.now) }
    ensures full { IsRefusedFor result (words_laid unlinked.now) }
{
    let mut reset = Row::new(alloc);
    put_reset(&mut reset, unlinked.static_bytes)?;
    let first = first_word(unlinked, reset.as_slice())?;
    let widest = lay(alloc, unlinked, first, &[], &[])?;
    let far = widest.placed.as_slice();
    let entries = far_entries(alloc, unlinked, far)?;
    let guess = entries.as_slice();
    let laid = lay(alloc, unlinked, first, far, guess)?;
    let stubs = stubs_of(alloc, unlinked.handlers.as_slice())?;
    let words = words_taken(unlinked, &laid, stubs.as_slice())?;
    if words >= 65536 {
        return Err(Refusal::Fault(CodeFull { words }));
    }
    Ok(linked(
        alloc,
        unlinked,
        reset,
        first,
        far,
        guess,
        &laid,
        stubs.as_slice(),
    )?)
}
