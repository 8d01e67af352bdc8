// What instructions read and write, and where they lead.
use vg_lin::{Call, Callee, Comparison, Instr, Operand, Passed, Plain, Registers, Test};

/// Where an instruction leads, as places.
#[derive(Clone, Copy)]
pub enum Next {
    Nowhere,
    One(usize),
    /// The place of a branch, and the one behind it.
    Two(usize, usize),
}

/// Where the instruction at a place leads.
pub fn next_of(instr: Instr, at: usize) -> Next {
    let behind = at.saturating_add(1);
    match instr {
        Instr::Plain(Plain::Stop(_)) => Next::Nowhere,
        Instr::Plain(_) => Next::One(behind),
        Instr::When(_, to) => Next::Two(usize::from(to), behind),
        Instr::Unless(_, to) => Next::Two(usize::from(to), behind),
        Instr::Jump(to) => Next::One(usize::from(to)),
        Instr::Call(_) => Next::One(behind),
        Instr::Return(_, _) => Next::Nowhere,
        Instr::Idle => Next::One(behind),
    }
}

/// The local that an instruction gives a value.
pub fn target_of(instr: Instr) -> Option<u8> {
    match instr {
        Instr::Plain(plain) => plain_target(plain),
        Instr::Call(call) => match call.to {
            Some(to) => Some(to.local),
            None => None,
        },
        _ => None,
    }
}

fn plain_target(plain: Plain) -> Option<u8> {
    match plain {
        Plain::Copy(to, _) => Some(to),
        Plain::Compute(c) => Some(c.to),
        Plain::Product(to, _, _) => Some(to),
        Plain::Load(_, _, to, _) => Some(to),
        Plain::ReadDevice(to, _) => Some(to),
        Plain::Pop(_, to) => Some(to),
        Plain::Find(_, to, _) => Some(to),
        Plain::CodeOf(_, to) => Some(to),
        _ => None,
    }
}

/// Whether an instruction may be trimmed.
pub fn is_known(instr: Instr) -> bool {
    match instr {
        Instr::Plain(Plain::Product(_, _, _)) => false,
        Instr::Plain(Plain::DivideSteps(_, _, _)) => false,
        _ => true,
    }
}

/// Whether an instruction gives a local a value and does nothing else.
pub fn is_pure(plain: Plain) -> bool {
    match plain {
        Plain::Copy(_, _) => true,
        Plain::Compute(_) => true,
        Plain::Load(_, _, _, _) => true,
        Plain::Find(_, _, _) => true,
        Plain::CodeOf(_, _) => true,
        _ => false,
    }
}

/// The operands that an instruction reads.
#[derive(Clone, Copy)]
pub struct Reads {
    pub first: Option<Operand>,
    pub second: Option<Operand>,
    pub registers: Registers,
}

const NO_READS: Reads = Reads {
    first: None,
    second: None,
    registers: Registers::Empty,
};

/// The operands that an instruction reads.
pub fn reads_of(instr: Instr) -> Reads {
    match instr {
        Instr::Plain(plain) => plain_reads(plain),
        Instr::When(test, _) => test_reads(test),
        Instr::Unless(test, _) => test_reads(test),
        Instr::Call(call) => call_reads(call),
        Instr::Return(_, value) => one(value),
        _ => NO_READS,
    }
}

fn one(value: Operand) -> Reads {
    Reads {
        first: Some(value),
        second: None,
        registers: Registers::Empty,
    }
}

fn two(first: Operand, second: Operand) -> Reads {
    Reads {
        first: Some(first),
        second: Some(second),
        registers: Registers::Empty,
    }
}

fn plain_reads(plain: Plain) -> Reads {
    match plain {
        Plain::Copy(_, value) => one(value),
        Plain::Compute(c) => two(c.left, c.right),
        Plain::Product(_, left, right) => two(left, right),
        Plain::Load(_, _, _, address) => one(address.index),
        Plain::Store(_, address, value) => two(address.index, value),
        Plain::WriteDevice(_, value) => one(value),
        Plain::Push(_, value) => one(value),
        Plain::Find(_, _, value) => one(value),
        _ => NO_READS,
    }
}

fn test_reads(test: Test) -> Reads {
    two(test.left, test.right)
}

fn call_reads(call: Call) -> Reads {
    let first = match call.callee {
        Callee::Procedure(_) => None,
        Callee::Code(value) => Some(value),
    };
    Reads {
        first,
        second: None,
        registers: call.registers,
    }
}

/// The local that a test compares with 0.
pub fn checked(test: Test) -> Option<u8> {
    match test.comparison {
        Comparison::Same => match test.left {
            Operand::Local(local) => match test.right {
                Operand::Known(0) => Some(local),
                _ => None,
            },
            Operand::Known(_) => None,
        },
        _ => None,
    }
}

/// Whether an instruction reads a local.
pub fn is_read(reads: Reads, local: u8) -> bool {
    is_in(reads.first, local) || is_in(reads.second, local) || is_passed(reads.registers, local)
}

fn is_in(value: Option<Operand>, local: u8) -> bool {
    match value {
        Some(Operand::Local(other)) => other == local,
        _ => false,
    }
}

fn is_passed(registers: Registers, local: u8) -> bool {
    match registers {
        Registers::Empty => false,
        Registers::One(a) => is_value(a, local),
        Registers::Two(a, b) => is_value(a, local) || is_value(b, local),
        Registers::Three(a, b, c) => {
            is_value(a, local) || is_value(b, local) || is_value(c, local)
        }
        Registers::Four(a, b, c, d) => {
            is_value(a, local) || is_value(b, local) || is_value(c, local) || is_value(d, local)
        }
    }
}

fn is_value(passed: Passed, local: u8) -> bool {
    match passed.value {
        Operand::Local(other) => other == local,
        Operand::Known(_) => false,
    }
}

/// Whether the instruction at a place counts: it is a call, waits for an interrupt, or is the test of a turn.
pub fn counts(code: &[Instr], place: usize) -> bool {
    match at(code, place) {
        Some(Instr::When(_, to)) => leaves_loop(code, place, to),
        Some(Instr::Unless(_, to)) => leaves_loop(code, place, to),
        Some(Instr::Call(_)) => true,
        Some(Instr::Idle) => true,
        _ => false,
    }
}

// Whether a branch leads behind the jump back of a loop in which it stands.
fn leaves_loop(code: &[Instr], place: usize, to: u16) -> bool {
    if to == 0 {
        return false;
    }
    match at(code, usize::from(to - 1)) {
        Some(Instr::Jump(back)) => usize::from(back) <= place,
        _ => false,
    }
}

/// Whether an instruction may lead to the one behind it.
pub fn goes_next(instr: Instr) -> bool {
    match instr {
        Instr::Plain(Plain::Stop(_)) => false,
        Instr::Jump(_) => false,
        Instr::Return(_, _) => false,
        _ => true,
    }
}

/// The instruction at a place.
pub fn at(code: &[Instr], place: usize) -> Option<Instr> {
    match code.get(place) {
        Some(instr) => Some(*instr),
        None => None,
    }
}

/// Whether two operands are the same.
pub fn is_same(first: Operand, second: Operand) -> bool {
    match first {
        Operand::Local(one) => match second {
            Operand::Local(other) => one == other,
            Operand::Known(_) => false,
        },
        Operand::Known(one) => match second {
            Operand::Known(other) => one == other,
            Operand::Local(_) => false,
        },
    }
}
