//! Programs put: the code of all procedures, one behind the other from the start procedure on, and where each of their instructions begins.
#![tactic(auto)]

pub mod leads;
pub mod placed;
pub mod programs;
pub mod reach;
pub mod turns;

pub use leads::leadings;
pub use placed::{Laid, Placed};
pub use programs::put_programs;
pub use reach::Reach;
pub use turns::{codes_of, entries_of};
