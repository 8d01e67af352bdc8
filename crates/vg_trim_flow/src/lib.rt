//! What guesses at trimmed procedures begin with: what instructions read and write, where they lead, which places runs reach, how many bytes hold values, and
//! sets of locals for the places of code.
#![tactic(auto)]

pub mod flow;
pub mod given;
pub mod grid;
pub mod joining;
pub mod sizes;

pub use flow::{
    Next, Reads, at, checked, counts, goes_next, is_known, is_pure, is_read, is_same, reads_of,
    target_of,
};
pub use given::Given;
pub use grid::Grid;
pub use joining::{Ways, is_at, joins, next_in, nexts_of, note, reach};
pub use sizes::{
    Size, bytes_of, bytes_to, computed_bytes, full, larger, narrowed, result_bytes, smaller,
    sum_of, width_of,
};
