//! The typed program: classes, members, types and literals have numbers in place of names. Its data, what it does, and which
//! programs are well typed.
#![tactic(auto)]

pub mod code;
pub mod heap;
pub mod member;
pub mod operator;
pub mod program;
pub mod step;
pub mod types;
pub mod value;

pub use code::Code;
pub use heap::{Cell, Heap};
pub use member::Member;
pub use operator::{Operator, Prefix};
pub use program::{Body, Class, Field, Handler, Method, Owner, Program, Tables, Target};
pub use step::Step;
pub use types::CoreType;
pub use value::CoreValue;
