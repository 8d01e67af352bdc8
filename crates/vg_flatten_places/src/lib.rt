//! What loads from columns and tables, and stores to columns, become, as pieces of linear code.
#![tactic(auto)]

pub mod columns;
pub mod elements;
pub mod nothing;
pub mod nulls;

pub use columns::{distance, length, load, load_at, store, store_to};
pub use elements::{load_item, store_item};
pub use nothing::{load_no_field, store_no_field};
pub use nulls::null_check;
