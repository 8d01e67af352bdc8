//! Arithmetic that the machine has no instruction for, as routines of linear code.
#![tactic(auto)]

pub mod division;
pub mod product;
pub mod routines;
pub mod shifts;

pub use division::division_routine;
pub use product::product_routine;
pub use routines::{ROUTINES, routine};
pub use shifts::{left_shift_routine, right_shift_routine};
