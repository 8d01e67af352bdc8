//! That the parameters and locals of the methods of a typed program have the types that a text declares, as a definition.
#![tactic(auto)]
