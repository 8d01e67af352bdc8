//! The rules on operators, casts and class tests, over operands that were judged: the code that a part of a chain or the
//! operators before an operand stand for, or the breach. The walk over expressions relies on the clause `judged`.
#![tactic(auto)]

mod compared;
mod operand;
mod operator;
mod prefix;
mod typed;

pub use operand::part;
pub use prefix::prefixed;
pub use typed::type_part;
