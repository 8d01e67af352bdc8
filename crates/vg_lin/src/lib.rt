//! Linear code: procedures of three-address code, what they do by small steps, and that they follow structured code.
#![tactic(auto)]

pub mod following;
pub mod instr;
pub mod procedure;

pub use instr::{
    Address, Call, Callee, Comparison, Computation, Instr, Memory, Operand, Operator, Passed,
    Plain, Registers, Target, Test,
};
pub use procedure::LinProc;
