//! A packed program of two procedures and its linear one, and one whose procedures look up in a dispatch, worked by hand, as tests.
#![tactic(auto)]

#[cfg(test)]
mod finding;
#[cfg(test)]
mod tests;
