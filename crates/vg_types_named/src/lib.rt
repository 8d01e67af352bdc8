//! That tables with names in place of numbers are those of the source program.
#![tactic(auto)]

mod laws;

pub use laws::{
    names_tell, nodes_counted, program_named, tables_named, tables_tell, targets_agree,
};
