//! Where fields, elements and arrays stand in the columns that were placed: the column of each field, the elements of each type, how many
//! elements stand before those of each array, and the table of each array type.
#![tactic(auto)]

pub mod arrays;
pub mod fields;
pub mod items;
pub mod next;
pub mod starting;

pub use arrays::array_tables;
pub use fields::field_places;
pub use items::item_places;
pub use starting::starts;
