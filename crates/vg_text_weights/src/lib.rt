//! That the procedures of a packed text weigh at most 28 times as much as the bodies of their methods have nodes.
#![tactic(auto)]

mod laws;

pub use laws::packed_texts_are_light;
