//! How many words of flash are enough for a text, by the nodes in the bodies of its live methods and the bytes of its tables; as definitions over names, with
//! the law that one live method counts for no more than all of them.
#![tactic(auto)]

pub mod laws;
