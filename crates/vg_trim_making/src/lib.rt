//! The instructions of the newer code, place by place, and in which locals their results stand.
#![tactic(auto)]

pub mod making;

pub use making::{Older, is_filled, is_live, made, note_bytes, settle};
