// Code.
use crate::step::Step;

/// Structured code. Blocks, chains of operators and the arms of an `if` are rows, so that nothing recurses along them.
pub enum Code {
    /// One behind another.
    Row(Vec<Code>),
    Do(Step),
    /// Takes a truth value: the first where it holds, else the second.
    If(Box<Code>, Box<Code>),
    /// The arms of an `if`, in order of the text, and what is done where no condition holds.
    Arms(Vec<Code>, Box<Code>),
    /// An arm: its condition, and what is done where it holds.
    Arm(Box<Code>, Box<Code>),
    /// The condition, the body, and what is done behind the body.
    Loop(Box<Code>, Box<Code>, Box<Code>),
    Break,
    Continue,
    /// The value waits.
    Return,
}

impl Drop for Code {
    // By hand: a function that may drop one calls this, where it would have a copy of a derived one.
    fn drop(self) {
        match self {
            Code::Row(_) => {}
            Code::Do(_) => {}
            Code::If(_, _) => {}
            Code::Arms(_, _) => {}
            Code::Arm(_, _) => {}
            Code::Loop(_, _, _) => {}
            Code::Break => {}
            Code::Continue => {}
            Code::Return => {}
        }
    }
}
