//! What the tree of a text has too many of, before any rule is asked.
#![tactic(auto)]

mod extent;
mod refused;
mod tally;

pub use extent::count_nodes;
pub use refused::{
    CLASS_LIMIT, HEIGHT_LIMIT, LOCAL_LIMIT, METHOD_LIMIT, TooMany, limit_of, too_many,
};
