//! Values put: the instructions that bring operands of linear code into registers and numbers to locals, behind the code so far.
#![tactic(auto)]

pub mod finding;
pub mod homes;
pub mod operands;
pub mod pointers;
pub mod registers;

pub use finding::{found_in, put_finds};
pub use homes::{clear_home_of, home_of, is_clear, made_in, put_settles};
pub use operands::{put_brings, put_fetch, put_gives};
pub use pointers::put_brings_z;
pub use registers::least;
