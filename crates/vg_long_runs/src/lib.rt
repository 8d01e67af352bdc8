//! Runs that go on for long, as a test that their lines go out meanwhile.
#![tactic(auto)]

#[cfg(test)]
mod tests;
