//! The image of a source text: the machine does in it what the text does from its initialised components.
#![tactic(auto)]

pub mod laws;
pub mod making;
pub mod unmade;

pub use making::{TextImage, image_of};
pub use unmade::Unmade;
