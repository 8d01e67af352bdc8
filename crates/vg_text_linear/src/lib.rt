//! That a text has linear code where the nodes of its live methods are few: no cause but want of memory is left why what is packed of it should have none.
#![tactic(auto)]

pub mod laws;
