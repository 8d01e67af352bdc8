//! Selection: the code of each instruction of linear code, by its template, behind the code so far.
#![tactic(auto)]

pub mod calling;
pub mod computing;
pub mod instructions;
pub mod leading;
pub mod plains;

pub use calling::put_call_front;
pub use instructions::put_selected;
pub use leading::Leading;
