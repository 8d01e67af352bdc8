//! A run over the typed program: what it has in hand and around it, and what each step does but those that call.
#![tactic(auto)]

pub mod alone;
pub mod around;
pub mod calling;
pub mod devices;
pub mod frequent;
pub mod methods;
pub mod operators;
pub mod places;
pub mod run;
pub mod signal;
pub mod values;

pub use around::{Around, Phase};
pub use calling::{Call, Outside};
pub use run::{Element, Run};
pub use signal::{Cause, Exit, Signal};
