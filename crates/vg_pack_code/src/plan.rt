// What is known where code is packed.
ghost use Rattle.std.specs.Prelude.{◌≡◌, ◌<◌, get_or, length, slice_get};
ghost use Rattle.vg_coded.specs.Numbers as coded;
ghost use Rattle.vg_live.specs.Sets.{flat};
ghost use Rattle.vg_pack_code.specs.Plans.{column_of, count_in, first_by, place_of, items_in};

use vg_base::Row;
use vg_firm::{Elements, Home};
use vg_number::{Numbers, Span};

/// No table has this number: that of a type of which no array is kept.
pub const NO_TABLE: u16 = 65_535;

/// No column has this number: that of the elements of a type whose kept arrays have no elements, or of which no array is kept.
pub const NO_COLUMN: u16 = 65_535;

/// Where the column of a field stands: its home, and its place among the columns of this home.
#[derive(Clone, Copy)]
pub struct ColumnPlace {
    pub home: Home,
    pub column: u16,
}

/// A static class and a selector that a live method asks for.
#[derive(Clone, Copy, Debug, PartialEq, Eq)]
pub struct Asked {
    pub class: u16,
    pub selector: u16,
}

/// Procedures, columns and dispatches, each by the number of what it is for.
#[derive(Drop)]
pub struct Plan {
    /// Of each method its procedure, where it is live.
    pub procedures: Row<Option<u16>>,
    /// Of each method, whether a delegate may be of it.
    pub bindable: Row<bool>,
    /// Of each method, whether its procedure gets a receiver.
    pub receives: Row<bool>,
    /// Of each field its column, where it has one.
    pub columns: Row<Option<ColumnPlace>>,
    /// Of each type, where the elements of its arrays stand.
    pub items: Row<Elements>,
    /// Of each cell, how many elements stand in the column of its type before those of the array in it.
    pub starts: Row<u16>,
    /// What live methods ask for, in order of the dispatches.
    pub asked: Row<Asked>,
    /// Of each method, the procedures that its own may call.
    pub edges: Row<Row<u16>>,
}

impl Plan {
    /// The procedure of a method; 0 where it has none, so that nothing calls it.
    pub fn procedure(&self, method: u16) -> u16
        ensures { result ≡ coded.known (flat (slice_get self.now.procedures method)) }
    {
        match self.procedures.as_slice().get(usize::from(method)) {
            Some(found) => match *found {
                Some(procedure) => procedure,
                None => 0,
            },
            None => 0,
        }
    }

    /// The column of a field, where it has one.
    pub fn column(&self, field: u32) -> Option<ColumnPlace>
        ensures { column_of result ≡ column_of (flat (slice_get self.now.columns field)) }
    {
        match self.columns.as_slice().get(field as usize) {
            Some(found) => *found,
            None => None,
        }
    }

    /// Where the elements of the arrays of a type stand.
    pub fn elements(&self, type_number: u32) -> Elements
        ensures { result ≡ items_in (slice_get self.now.items type_number) }
    {
        match self.items.as_slice().get(type_number as usize) {
            Some(found) => *found,
            None => Elements {
                home: Home::Ram,
                column: NO_COLUMN,
                address: 0,
                table: NO_TABLE,
                width: 0,
            },
        }
    }

    /// The dispatch of a static class and a selector.
    pub fn dispatch(&self, class: u16, selector: u16) -> u32
        requires { length self.now.asked < 4294967296 }
        ensures { result ≡ place_of self.now.asked class selector }
    {
        place(self.asked.as_slice(), class, selector)
    }
}

// The place of the first of these that asks for a selector on a class; how many there are, where none does.
fn place(asked: &[Asked], class: u16, selector: u16) -> u32
    requires { length asked.now < 4294967296 }
    ensures { result ≡ place_of asked.now class selector }
{
    let mut place = 0u32;
    for one in asked {
        if one.class == class && one.selector == selector {
            return place;
        }
        place += 1;
    }
    place
}

/// The number of a cell: 0 where it is not kept.
pub fn number_of(numbers: &Numbers, cell: u32) -> u16
    ensures { result ≡ get_or numbers.now.of_cell cell 0 }
{
    match numbers.of_cell.as_slice().get(cell as usize) {
        Some(number) => *number,
        None => 0,
    }
}

/// The numbers of the objects of a class and of those below it: the first, and how many there are. A class that is not there has none.
pub fn span_of(numbers: &Numbers, class: u16) -> Span
    ensures first { result.first ≡ first_by numbers.now.spans class }
    ensures count { result.count ≡ count_in numbers.now.spans class }
{
    match numbers.spans.as_slice().get(usize::from(class)) {
        Some(span) => *span,
        None => Span { first: 1, count: 0 },
    }
}
