//! The layout of an image, which says what it uses of SRAM and flash, and its text.
#![tactic(auto)]

pub mod code_piece;
pub mod layout;
pub mod lines;
pub mod stack_bound;
pub mod text;

pub use code_piece::{CodePiece, Whose};
pub use layout::{Area, Bound, Kept, Layout, Piece};
pub use stack_bound::StackBound;
pub use text::layout_text;
