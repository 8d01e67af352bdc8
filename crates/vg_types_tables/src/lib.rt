//! What the checker knows of a text once its declarations are passed, what it knows inside a body, and what its functions answer.
#![tactic(auto)]

pub mod body;
pub mod build;
pub mod code_laws;
pub mod declared;
pub mod judged;
pub mod laws;
pub mod locals;
pub mod lookups;
pub mod scope;
pub mod types;
pub mod written_type;

pub use body::BodyKind;
pub use build::{chain, row, three, two};
pub use declared::{Declared, MemberNumber};
pub use judged::{Aimed, Done, Head, Judged, Standing, Storing};
pub use locals::{InScope, Locals};
pub use lookups::{
    class_member, class_of, component_member, component_of, is_below, is_device, literal_of,
    number_of, register_of, type_of_number,
};
pub use scope::find_local;
pub use types::fits;
pub use written_type::{has_levels, type_keeps, written};
