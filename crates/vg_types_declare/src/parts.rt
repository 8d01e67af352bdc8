// What the tables are made of, beside types and members.
use vg_base::{Name, Row};
use vg_core::{Class, CoreType, Field};
use vg_types_views::ByText;

/// The names of declarations, but for the numbers of classes by their names.
#[derive(Drop)]
pub(crate) struct Others {
    pub class_names: Row<Name>,
    pub components: ByText<u16>,
    pub component_names: Row<Name>,
    pub devices: ByText<u32>,
    pub registers: Row<ByText<u8>>,
}

/// The lists of the tables that no pass left: the classes with all that they inherit, the fields with their slots, and the types in order.
#[derive(Drop)]
pub(crate) struct Lists {
    pub classes: Row<Class>,
    pub fields: Row<Field>,
    pub types: Row<CoreType>,
}
