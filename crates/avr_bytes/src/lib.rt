//! The machine holds bytes: a processor whose registers and SRAM hold bytes still does behind any instruction and any run.
#![tactic(auto)]

pub mod keeping;

pub use keeping::{code_in_range, images_are_flash, instructions_keep_bytes, runs_keep_bytes};
