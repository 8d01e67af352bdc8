// What the pass over declarations leaves.
ghost use Rattle.std.specs.Prelude.{◌≡◌};

use indexmap::IndexSet;
use vg_base::Row;
use vg_core::{CoreType, Tables};
use vg_types_views::ByText;

/// A member of a class or component, by its number in the tables.
#[derive(Clone, Copy, Debug, PartialEq, Eq)]
pub enum MemberNumber {
    Field(u32),
    Method(u16),
}

/// The tables of the program that a text stands for, and the names of what is in them.
pub struct Declared {
    pub tables: Tables,
    pub classes: ByText<u16>,
    pub components: ByText<u16>,
    pub devices: ByText<u32>,
    /// The members that each class declares itself, in the order of the classes.
    pub class_members: Row<ByText<MemberNumber>>,
    /// The members of each component.
    pub component_members: Row<ByText<MemberNumber>>,
    /// The addresses of the registers of each device.
    pub registers: Row<ByText<u8>>,
    /// The nodes of the string literals, in order of the text.
    pub literal_nodes: IndexSet<u32>,
    /// The types of the tables, by their numbers.
    pub type_numbers: IndexSet<CoreType>,
}

impl Drop for Declared {
    // By hand: a function that may drop one calls this, where it would have a copy of a derived one.
    fn drop(self) {
        let Declared {
            tables: _,
            classes: _,
            components: _,
            devices: _,
            class_members: _,
            component_members: _,
            registers: _,
            literal_nodes: _,
            type_numbers: _,
        } = self;
    }
}

impl Declared {
    /// The tables alone.
    pub fn into_tables(self) -> Tables
        ensures { result ≡ self.tables }
    {
        let Declared {
            tables,
            classes: _,
            components: _,
            devices: _,
            class_members: _,
            component_members: _,
            registers: _,
            literal_nodes: _,
            type_numbers: _,
        } = self;
        tables
    }
}
