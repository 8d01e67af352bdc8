// The procedures that are the finders of dispatches.
ghost use Rattle.std.specs.Prelude.{◌≡◌, IfOk, IsTrue, slice_get};
ghost use Rattle.vg_codes.specs.Dispatch.{cases_of};
ghost use Rattle.vg_finding.specs.Found.{AreCasesWithin, IsCaseWithin};
ghost use Rattle.vg_finders.specs.Numbering.{AreNumbers, IsNumber, Serves};

use std::alloc::Global;
use vg_base::{NoMemory, Row};
use vg_cases::covers;
use vg_codes::Case;

/// What finders are looked at by.
#[derive(Clone, Copy)]
pub struct Setting<'a> {
    /// How many procedures cases may have.
    pub count: usize,
    /// How many procedures stand before the finders.
    pub before: usize,
    /// The dispatches of the program.
    pub olds: &'a [Row<Case>],
    /// The same, with fewer cases.
    pub news: &'a [Row<Case>],
    /// The dispatches of the finders, in their order.
    pub finders: &'a [u32],
}

/// The numbers of the procedures that are the finders of dispatches, where these have their finders at such places and are served by them.
pub fn numbers(
    alloc: Global,
    setting: Setting<'_>,
    places: &[Option<u32>],
) -> Result<Row<Option<u16>>, NoMemory>
    ensures { IfOk result (AreNumbers setting.entry.count setting.entry.before setting.entry.olds.now setting.entry.news.now setting.entry.finders.now) }
{
    let mut row = Row::new(alloc);
    for place in places {
        let number = number_of(setting, row.len(), *place);
        row.push(number)?;
    }
    Ok(row)
}

// The number of the finder at a place, where it serves the dispatch.
fn number_of(setting: Setting<'_>, dispatch: usize, place: Option<u32>) -> Option<u16>
    ensures { IsNumber setting.entry.count setting.entry.before setting.entry.olds.now setting.entry.news.now setting.entry.finders.now dispatch result }
{
    let place = place? as usize;
    let finder = *setting.finders.get(place)?;
    let number = setting.before.checked_add(place)?;
    let old = cases_of(setting.olds, dispatch);
    let new = cases_of(setting.news, finder as usize);
    if !serves(setting.count, old, new) {
        return None;
    }
    match u16::try_from(number) {
        Ok(number) => Some(number),
        Err(_) => None,
    }
}

fn cases_of(dispatches: &[Row<Case>], dispatch: usize) -> &[Case]
    ensures { result.now ≡ cases_of (slice_get dispatches.now dispatch) }
{
    match dispatches.get(dispatch) {
        Some(cases) => cases.as_slice(),
        None => &[],
    }
}

// Whether newer cases cover older ones, which have numbers of two bytes and procedures among the first so many.
fn serves(count: usize, old: &[Case], new: &[Case]) -> bool
    ensures { IsTrue result → Serves count old.now new.now }
{
    are_within(old, count) && covers(new, old)
}

/// Whether the numbers of cases have two bytes, and their procedures are among the first so many.
pub fn are_within(cases: &[Case], count: usize) -> bool
    ensures { IsTrue result → AreCasesWithin count cases.now }
{
    for case in cases {
        if !is_within(*case, count) {
            return false;
        }
    }
    true
}

fn is_within(case: Case, count: usize) -> bool
    ensures { IsTrue result → IsCaseWithin count case }
{
    u32::from(case.first) + u32::from(case.count) <= 65_536 && usize::from(case.procedure) < count
}
