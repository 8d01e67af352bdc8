// What of a packed program is asked while it runs.
use vg_base::Row;
use vg_codes::Case;
use vg_firm::{ArrayPlace, Procedure};

// The code number of the first procedure. A code number counts words: in an image it is the word address at which the code of its procedure begins. No
// image has these.
const FIRST_CODE: u32 = 69;

// By how many words the code numbers of two neighbours differ. One of an even number stands for no procedure.
const CODE_STEP: u32 = 2;

/// The procedures, dispatches and tables of arrays of a packed program.
#[derive(Clone, Copy)]
pub struct Packed<'a> {
    pub procedures: &'a [Procedure],
    pub dispatches: &'a [Row<Case>],
    pub tables: &'a [Row<ArrayPlace>],
}

/// The code number that stands for a procedure in delegates. Two bytes hold those of the first 32,734 procedures.
pub fn code_number(procedure: u16) -> u32 {
    FIRST_CODE + CODE_STEP * u32::from(procedure)
}

/// The procedure that a code number stands for.
pub fn at_code(code: u32) -> Option<u16> {
    let behind = code.checked_sub(FIRST_CODE)?;
    if behind % CODE_STEP != 0 {
        return None;
    }
    u16::try_from(behind / CODE_STEP).ok()
}

impl<'a> Packed<'a> {
    /// The procedure at this place.
    pub fn procedure(&self, place: u16) -> Option<&'a Procedure> {
        self.procedures.get(usize::from(place))
    }

    /// Where the array with this number stands, by the table at this place.
    pub fn array(&self, table: u16, number: u32) -> Option<ArrayPlace> {
        let arrays = self.tables.get(usize::from(table))?;
        let place = number.checked_sub(1)?;
        arrays.as_slice().get(place as usize).copied()
    }

    /// The procedure that the dispatch at this place has for the object with this number.
    pub fn dispatched(&self, dispatch: u32, number: u32) -> Option<u16> {
        let cases = self.dispatches.get(dispatch as usize)?;
        for case in cases.as_slice() {
            if is_within(case.first, case.count, number) {
                return Some(case.procedure);
            }
        }
        None
    }
}

/// Whether a number is one of so many from the first on.
pub fn is_within(first: u16, count: u16, number: u32) -> bool {
    u32::from(first) <= number && number < u32::from(first) + u32::from(count)
}

/// Whether a procedure is among those that another names.
pub fn is_called(calls: &[u16], procedure: u16) -> bool {
    for call in calls {
        if *call == procedure {
            return true;
        }
    }
    false
}
