//! Whether linear code reads and writes device registers alone, as flattened code does, and calls as it does.
#![tactic(auto)]

pub mod apt;

pub use apt::is_apt_code;
