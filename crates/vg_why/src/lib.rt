//! The command `why` behind its files: the bytes of a source text and the name of a member come in, and the lines that say why it is live go out, or why there are none.
#![tactic(auto)]

mod telling;

pub use telling::why_lines;
