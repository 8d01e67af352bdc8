//! Guesses at trimmed procedures, and whether they stand: some made by hand, and those that are made of programs.
#![tactic(auto)]

#[cfg(test)]
mod bounds;
#[cfg(test)]
mod homes;
#[cfg(test)]
mod programs;
#[cfg(test)]
mod tests;
