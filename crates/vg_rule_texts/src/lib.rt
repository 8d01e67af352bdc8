//! Which texts keep the rules of the language and which break them, as theorems by computation.
#![tactic(auto)]
