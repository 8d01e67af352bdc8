//! Runs of packed programs: steps, columns and calls. A run is wrong where the meaning of packed programs is: where a step takes a value, or names a local,
//! a receiver, an entry of a column, an array, a case of a dispatch or a procedure, that is not there; where a value is wider than what it goes to, or none
//! that the operator takes; where an object or an array does not stand in the column; and where a call gives other than as many arguments as there are
//! parameters, has no local for one of them, gives a receiver to a procedure that gets none, or calls one that its caller does not name. Whether there is a
//! local for each argument, and none is too wide, is looked at behind the tick of the call. What is tested is that a run shows the right trace; what
//! operators make of numbers is proved.
#![tactic(auto)]

pub mod end;
pub mod machine;
pub mod memory;
pub mod operators;
pub mod packed;
pub mod stacks;
pub mod todo;

pub use end::End;
pub use machine::Machine;
pub use memory::Memory;
pub use packed::{Packed, code_number};
