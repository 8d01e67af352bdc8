//! That the tables of a text find by name what the text declares.
#![tactic(auto)]

mod laws;

pub use laws::{
    chains_agree, dispatch_agrees, heads_agree, inherited_agree, members_agree, members_apart,
    numbers_aside, places_agree, slots_agree, tables_find, tables_formed,
};
