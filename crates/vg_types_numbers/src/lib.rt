//! The numbers that tokens of a text write.
#![tactic(auto)]

mod number;

pub use number::{are_digits, digit_value, is_hexadecimal, number_of};
