//! What stands behind a `new`, made of its kids: a class with arguments, or the type of an element with a size and levels; and the suffixes behind them.
#![tactic(auto)]

pub mod fresh;
