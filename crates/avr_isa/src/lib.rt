//! The machine: what each instruction of the AVR ATmega128 does, one step of the processor, and whole runs.
#![tactic(auto)]

pub mod agreement;
mod arithmetic;
pub mod code;
pub mod cpu;
pub mod effect;
pub mod ending;
pub mod flag_laws;
pub mod flags;
pub mod floor;
mod flow;
pub mod image;
pub mod memory;
pub mod plain;
pub mod stack;
pub mod stepping;
mod transfer;

pub use agreement::{follows_above_floor, follows_within_stack};
pub use code::code_stands;
pub use cpu::Cpu;
pub use effect::Effect;
pub use ending::MachineEnd;
pub use floor::{ended_above, pushes_keep_below, spl_is_seen};
pub use image::Image;
pub use plain::PlainMachine;
pub use stepping::step;
