//! Templates: where procedures keep their locals and how those that wait lie on the stack, the code for each instruction of linear code, for the start
//! and for interrupts, and where that code leads.
#![tactic(auto)]

pub mod branching;
pub mod calls;
pub mod columns;
pub mod combining;
pub mod computations;
pub mod depth;
pub mod entries;
pub mod frame_locals;
pub mod idling;
pub mod layouts;
pub mod linkage;
pub mod locals;
pub mod operands;
pub mod ordering;
pub mod ranged;
pub mod results;
pub mod spots;
pub mod starting;
pub mod steps;
pub mod summing;
pub mod values;
