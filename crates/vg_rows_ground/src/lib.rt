//! Rows and names, tried once each, as tests.
#![tactic(auto)]

#[cfg(test)]
mod names;
#[cfg(test)]
mod rows;
