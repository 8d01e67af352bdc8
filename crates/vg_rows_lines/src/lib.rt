//! What the tables of rows share: the fields of a line, the bytes that a field spells, and how an answer is written.
#![tactic(auto)]

pub mod escapes;
pub mod images;
pub mod line;
pub mod shown;

pub use escapes::spelled;
pub use images::image_bytes;
pub use line::TextLine;
pub use shown::{said, shown_text};
