// Programs of the language.

/// One step. A value is a byte, an address is a data address of the chip.
#[derive(Clone, Copy, Debug, PartialEq, Eq)]
pub enum Step {
    /// Puts this value in front of those that wait.
    Number(u8),
    /// Puts the next value of the register at this address in front of those that wait.
    Read(u8),
    /// Takes the newest value and writes it to the register at this address.
    Write(u8),
    /// Calls a method, by its name or by its place.
    Call(u8),
}

/// The body of a method.
#[derive(Drop)]
pub enum Body {
    Nothing,
    /// One body and then another.
    Then(Box<Body>, Box<Body>),
    Do(Step),
    /// Takes the newest value: the first body where it is not 0, else the second.
    If(Box<Body>, Box<Body>),
    /// The condition, the body, and what is done behind the body.
    Loop(Box<Body>, Box<Body>, Box<Body>),
    Break,
    Continue,
    Return,
}

/// The methods of a program, in order, each with its name. The first one is where a run begins.
#[derive(Drop)]
pub enum Program {
    Empty,
    More(u8, Body, Box<Program>),
}
