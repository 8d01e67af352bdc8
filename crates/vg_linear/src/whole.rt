// Whole programs.
ghost use Rattle.std.specs.Prelude.{◌≡◌, ◌<◌, ◌≤◌, IfOk, length};
ghost use Rattle.vg_apt.specs.Apt.{AllKeepApt};
ghost use Rattle.vg_trim.specs.Looked.{AreNoLonger};
ghost use Rattle.vg_trimming.specs.Trimmed.{AreAllTrimmed};
ghost use Rattle.vg_linear.specs.declared.whole.Making.TheVariants.{Plain};
ghost use Rattle.vg_linear.specs.Flats.{AreAllFlat};
ghost use Rattle.vg_linear.specs.Laying.{layout_of};
ghost use Rattle.vg_linear.specs.Refusals.{AreRefused, AreTakenIn, IsExpandedOrTooLong, IsRefused, IsTakenFor, IsTypedIn};
ghost use Rattle.vg_linear.specs.Whole.{AreAllMade, ArePlain, IsLinear, IsPlain, IsWithStart, packed_of};
ghost use Rattle.vg_linear.specs.Widths.{AllHaveWidths};

use crate::expanding::expand_all;
use crate::flats::flatten_all;
use crate::laying::layout;
use crate::routines::with_routines;
use crate::widths::all_have_widths;
use std::alloc::Global;
use vg_base::{NoMemory, Refusal, Row};
use vg_codes::Case;
use vg_finders::{Found, Lookups, find_by};
use vg_flatten::start;
use vg_flatten_shapes::{Fault, Layout};
use vg_lin::LinProc;
use vg_packed::FirmProgram;
use vg_placement::Column;
use vg_trim::{keep_all, trim_all};

/// A linear program.
pub struct Linear {
    /// Where columns and tables stand, and how procedures are called.
    pub layout: Layout,
    /// Those of the packed program, in their order, and the start, each expanded, and trimmed before that, unless the program is plain; and behind them, in
    /// the place of each of the four routines, the routine where one of these procedures calls it, and else a procedure that returns at once; and behind
    /// these the finders of dispatches, where look-ups are calls of them.
    pub procedures: Row<LinProc>,
    /// The dispatches of the packed program, each with fewer cases where neighbours have one procedure.
    pub dispatches: Row<Row<Case>>,
    /// The place of the start: behind those of the packed program.
    pub start: u16,
}

impl Drop for Linear {
    // By hand: a function that may drop one calls this, where it would have a copy of a derived one.
    fn drop(self) {
        let Linear {
            layout: _,
            procedures: _,
            dispatches: _,
            start: _,
        } = self;
    }
}

impl Linear {
    /// The procedures and the dispatches.
    pub fn into_parts(self) -> (Row<LinProc>, Row<Row<Case>>)
        ensures procedures { result.0 ≡ self.procedures }
        ensures dispatches { result.1 ≡ self.dispatches }
    {
        let Linear {
            layout: _,
            procedures,
            dispatches,
            start: _,
        } = self;
        (procedures, dispatches)
    }
}

// Whether the procedures of a linear program are trimmed before they are expanded, and how they look up what dispatches have.
#[derive(Clone, Copy)]
enum Making {
    // Each has less to do, and looks up by itself.
    Trimmed,
    // Each has less to do, and looks up by finders.
    Shared,
    // Each is as it was flattened, and looks up by finders.
    Plain,
}

/// The linear program of a packed one with these columns. All its procedures are expanded: none of them has a product, a division, a remainder or a shift
/// by an amount that is not known. All are trimmed before that, and each looks up by itself what a dispatch has for the number of an object. Neighbours in a
/// dispatch that have one procedure are one case.
///
/// It refuses a procedure that `flatten` refuses, for its cause; as not taken one with a local of no byte or of more than four, with more parameters than
/// locals or with a result of more than four bytes; and as too long one that has more than 32,767 instructions of linear code, and more than 65,531
/// procedures. Of a program whose procedures are typed in the layout it refuses only what is too long.
pub fn make_linear(
    alloc: Global,
    columns: &[Column],
    firm: &FirmProgram,
) -> Result<Linear, Refusal<Fault>>
    requires { firm.now.main < length firm.now.procedures }
    ensures linear { IfOk result (IsLinear columns.now firm.now) }
    ensures refusal { IsRefused result columns.now firm.now }
    ensures typed { IsTypedIn (layout_of columns.now firm.now) firm.now → IsTakenFor result columns.now firm.now }
{
    make(alloc, columns, firm, Making::Trimmed)
}

/// The linear program that `make_linear` makes, with finders: one for each dispatch that is looked up and that no larger one covers, behind the routines. Its
/// procedures call them where they would look up by themselves. That takes more steps, and less code where dispatches are large or are looked up often. It
/// refuses what that refuses.
pub fn make_shared(
    alloc: Global,
    columns: &[Column],
    firm: &FirmProgram,
) -> Result<Linear, Refusal<Fault>>
    requires { firm.now.main < length firm.now.procedures }
    ensures linear { IfOk result (IsLinear columns.now firm.now) }
    ensures refusal { IsRefused result columns.now firm.now }
    ensures typed { IsTypedIn (layout_of columns.now firm.now) firm.now → IsTakenFor result columns.now firm.now }
{
    make(alloc, columns, firm, Making::Shared)
}

/// The linear program of a packed one with these columns in which no procedure is trimmed: what `make_shared` makes, with more to do, of which more is known.
/// It refuses what that refuses.
pub fn make_plain(
    alloc: Global,
    columns: &[Column],
    firm: &FirmProgram,
) -> Result<Linear, Refusal<Fault>>
    requires { firm.now.main < length firm.now.procedures }
    ensures linear { IfOk result (IsLinear columns.now firm.now) }
    ensures plain { IfOk result (IsPlain columns.now firm.now) }
    ensures refusal { IsRefused result columns.now firm.now }
    ensures typed { IsTypedIn (layout_of columns.now firm.now) firm.now → IsTakenFor result columns.now firm.now }
{
    make(alloc, columns, firm, Making::Plain)
}

// The linear program, with its procedures made so.
fn make(
    alloc: Global,
    columns: &[Column],
    firm: &FirmProgram,
    making: Making,
) -> Result<Linear, Refusal<Fault>>
    requires { firm.now.main < length firm.now.procedures }
    ensures linear { IfOk result (IsLinear columns.now firm.now) }
    ensures plain { making ≡ Plain → IfOk result (IsPlain columns.now firm.now) }
    ensures refusal { IsRefused result columns.now firm.now }
    ensures typed { IsTypedIn (layout_of columns.now firm.now) firm.now → IsTakenFor result columns.now firm.now }
{
    let procedures = firm.procedures.as_slice();
    if !all_have_widths(procedures) {
        return Err(Refusal::Fault(Fault::NotTaken));
    }
    if procedures.len() > 65_531 {
        return Err(Refusal::Fault(Fault::TooLong));
    }
    let layout = layout(alloc, columns, firm)?;
    let found = match all_procedures(alloc, &layout, firm, making) {
        Ok(found) => found,
        Err(why) => return Err(why),
    };
    let (all, dispatches) = found.into_parts();
    Ok(Linear {
        layout,
        procedures: all,
        dispatches,
        start: procedures.len() as u16,
    })
}

// Those of the program, flattened, and the start, all of them made so and expanded, the routines that they call, and the finders; and the dispatches.
fn all_procedures(
    alloc: Global,
    layout: &Layout,
    firm: &FirmProgram,
    making: Making,
) -> Result<Found, Refusal<Fault>>
    requires widths { AllHaveWidths firm.now.procedures }
    requires few { length firm.now.procedures ≤ 65531 }
    requires main { firm.now.main < length firm.now.procedures }
    ensures made { IfOk result (λ all. AreAllMade layout.now firm.now all.dispatches all.procedures) }
    ensures plain { making ≡ Plain → IfOk result (λ all. ArePlain layout.now firm.now all.dispatches all.procedures) }
    ensures refusal { AreRefused result layout.now firm.now }
    ensures typed { IsTypedIn layout.now firm.now → AreTakenIn result layout.now firm.now }
{
    let flats = match flatten_all(alloc, layout, firm.procedures.as_slice()) {
        Ok(flats) => flats,
        Err(why) => return Err(why),
    };
    made_of(alloc, layout, firm, flats, making)
}

// The flattened procedures and the start, made so and expanded, the routines that they call, and the finders; and the dispatches.
fn made_of(
    alloc: Global,
    layout: &Layout,
    firm: &FirmProgram,
    flats: Row<LinProc>,
    making: Making,
) -> Result<Found, Refusal<Fault>>
    requires few { length firm.now.procedures ≤ 65531 }
    requires main { firm.now.main < length firm.now.procedures }
    requires flat { AreAllFlat layout.now (packed_of firm.now) flats }
    ensures made { IfOk result (λ all. AreAllMade layout.now firm.now all.dispatches all.procedures) }
    ensures plain { making ≡ Plain → IfOk result (λ all. ArePlain layout.now firm.now all.dispatches all.procedures) }
    ensures refusal { AreRefused result layout.now firm.now }
    ensures typed { IsTypedIn layout.now firm.now → AreTakenIn result layout.now firm.now }
{
    let first = firm.procedures.len() as u16 + 1;
    let begun = with_start(alloc, firm, flats)?;
    let trimmed = made(alloc, begun.as_slice(), making)?;
    let expanded = match expanded(alloc, trimmed.as_slice(), first) {
        Ok(expanded) => expanded,
        Err(why) => return Err(why),
    };
    let routined = with_routines(alloc, expanded, first)?;
    let found = find_by(
        alloc,
        routined.as_slice(),
        firm.dispatches.as_slice(),
        firm.procedures.len(),
        lookups(making),
    )?;
    Ok(found)
}

// The procedures, trimmed or as they are.
fn made(alloc: Global, procedures: &[LinProc], making: Making) -> Result<Row<LinProc>, NoMemory>
    ensures trimmed { IfOk result (λ new. AreAllTrimmed procedures.now new) }
    ensures short { IfOk result (λ new. AreNoLonger procedures.now new) }
    ensures apt { IfOk result (λ new. AllKeepApt procedures.now new) }
    ensures same { making ≡ Plain → IfOk result (λ new. new ≡ procedures.now) }
{
    match making {
        Making::Trimmed | Making::Shared => trim_all(alloc, procedures),
        Making::Plain => keep_all(alloc, procedures),
    }
}

// How the procedures look up what dispatches have.
fn lookups(making: Making) -> Lookups {
    match making {
        Making::Trimmed => Lookups::InPlace,
        Making::Shared | Making::Plain => Lookups::ByFinders,
    }
}

// The start is put behind the procedures.
fn with_start(
    alloc: Global,
    firm: &FirmProgram,
    procedures: Row<LinProc>,
) -> Result<Row<LinProc>, NoMemory>
    requires { firm.now.main < length firm.now.procedures }
    ensures { IfOk result (IsWithStart firm.now procedures) }
{
    let main = &firm.procedures.as_slice()[usize::from(firm.main)];
    let mut all = procedures;
    all.push(start(alloc, firm.main, main.receives)?)?;
    Ok(all)
}

// The procedures, expanded.
fn expanded(
    alloc: Global,
    procedures: &[LinProc],
    first: u16,
) -> Result<Row<LinProc>, Refusal<Fault>>
    requires { first < 65533 }
    ensures { IsExpandedOrTooLong result first procedures.now }
{
    match expand_all(alloc, procedures, first) {
        Ok(all) => Ok(all),
        Err(Refusal::NoMemory) => Err(Refusal::NoMemory),
        Err(Refusal::Fault(_)) => Err(Refusal::Fault(Fault::TooLong)),
    }
}
