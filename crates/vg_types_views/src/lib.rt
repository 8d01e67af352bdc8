//! What the rooms of the checker share: maps from texts, texts of names, and the breach of a rule as an answer.
#![tactic(auto)]

pub mod broken;
pub mod by_text;
pub mod texts;

pub use broken::Broken;
pub use by_text::ByText;
pub use texts::text_of;
