//! The code of packed programs: what stands for each step and for the code of a body, where numbers, columns, dispatches and procedures are
//! planned.
#![tactic(auto)]

pub mod code;
pub mod constants;
pub mod operators;
pub mod plan;
pub mod rows;
pub mod steps;

pub use code::packed_code;
pub use operators::width_of;
pub use plan::{Asked, ColumnPlace, NO_COLUMN, NO_TABLE, Plan, number_of, span_of};
