// Finders in place of look-ups.
ghost use Rattle.std.specs.Prelude.{◌≡◌, IfOk};
ghost use Rattle.vg_finding.specs.Found.{AreFound};

use crate::choosing::{Choice, choose};
use crate::numbering::{Setting, numbers};
use crate::replacing::all_found;
use std::alloc::Global;
use vg_base::{NoMemory, Row};
use vg_cases::fewer_of_all;
use vg_codes::Case;
use vg_lin::LinProc;

/// How a program looks up what its dispatches have for the numbers of objects.
#[derive(Clone, Copy)]
pub enum Lookups {
    /// Where they are asked for: an image then takes the code of a look-up at each such place, and no call.
    InPlace,
    /// By finders, each of which is there once: a dispatch is looked up by the finder of one that covers it and has the most numbers, among those that are
    /// asked for.
    ByFinders,
}

/// Procedures and dispatches of a program in which each dispatch has few cases.
pub struct Found {
    pub procedures: Row<LinProc>,
    pub dispatches: Row<Row<Case>>,
}

impl Drop for Found {
    // By hand: a function that may drop one calls this, where it would have a copy of a derived one.
    fn drop(self) {
        let Found {
            procedures: _,
            dispatches: _,
        } = self;
    }
}

impl Found {
    /// The procedures and the dispatches, each alone.
    pub fn into_parts(self) -> (Row<LinProc>, Row<Row<Case>>)
        ensures procedures { result.0 ≡ self.procedures }
        ensures dispatches { result.1 ≡ self.dispatches }
    {
        let Found {
            procedures,
            dispatches,
        } = self;
        (procedures, dispatches)
    }
}

/// The procedures with calls of finders in place of look-ups, where these are to be by finders, and the finders behind them; and the dispatches, each with
/// its cases in order of their numbers and neighbours joined that have one procedure. The procedures of cases are looked at: a dispatch gets a finder only
/// where they are among the first so many, and its numbers have two bytes.
pub fn find_by(
    alloc: Global,
    procedures: &[LinProc],
    dispatches: &[Row<Case>],
    count: usize,
    lookups: Lookups,
) -> Result<Found, NoMemory>
    ensures { IfOk result (λ new. AreFound count dispatches.now new.dispatches procedures.now new.procedures) }
{
    let fewer = fewer_of_all(alloc, dispatches)?;
    let choice = match lookups {
        Lookups::InPlace => Choice::none(alloc),
        Lookups::ByFinders => choose(alloc, procedures, dispatches, fewer.as_slice(), count)?,
    };
    let setting = Setting {
        count,
        before: procedures.len(),
        olds: dispatches,
        news: fewer.as_slice(),
        finders: choice.finders.as_slice(),
    };
    let numbers = numbers(alloc, setting, choice.places.as_slice())?;
    let found = all_found(
        alloc,
        numbers.as_slice(),
        choice.finders.as_slice(),
        procedures,
    )?;
    Ok(Found {
        procedures: found,
        dispatches: fewer,
    })
}
