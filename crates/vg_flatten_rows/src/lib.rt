//! Packed bodies and their linear code, worked by hand, as theorems by computation; and a large body, as a test.
#![tactic(auto)]

#[cfg(test)]
mod tests;
