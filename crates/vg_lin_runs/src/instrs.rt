// Instructions, by short names.
use vg_lin::{
    Address, Call, Callee, Comparison, Computation, Instr, Memory, Operand, Operator, Passed,
    Plain, Registers, Target, Test,
};

/// The value of a local.
pub fn local(number: u8) -> Operand {
    Operand::Local(number)
}

/// A value that is known.
pub fn known(value: u32) -> Operand {
    Operand::Known(value)
}

/// The low byte is written to the register at 0x38, which is 56.
pub fn write(operand: Operand) -> Instr {
    Instr::Plain(Plain::WriteDevice(0x38, operand))
}

pub fn copy(to: u8, operand: Operand) -> Instr {
    Instr::Plain(Plain::Copy(to, operand))
}

pub fn compute(operator: Operator, width: u8, to: u8, left: Operand, right: Operand) -> Instr {
    Instr::Plain(Plain::Compute(Computation {
        operator,
        width,
        to,
        left,
        right,
    }))
}

pub fn push(width: u8, operand: Operand) -> Instr {
    Instr::Plain(Plain::Push(width, operand))
}

pub fn pop(width: u8, to: u8) -> Instr {
    Instr::Plain(Plain::Pop(width, to))
}

pub fn stop(code: u8) -> Instr {
    Instr::Plain(Plain::Stop(code))
}

pub fn load(memory: Memory, width: u8, to: u8, base: u16, index: Operand) -> Instr {
    Instr::Plain(Plain::Load(memory, width, to, Address { base, index }))
}

pub fn store(width: u8, base: u16, index: Operand, from: Operand) -> Instr {
    Instr::Plain(Plain::Store(width, Address { base, index }, from))
}

/// Whether two values are the same in so many low bytes.
pub fn same(width: u8, left: Operand, right: Operand) -> Test {
    Test {
        comparison: Comparison::Same,
        width,
        left,
        right,
    }
}

/// A call of a procedure by its number.
pub fn call(procedure: u16, pushed: u8, registers: Registers, to: Option<Target>) -> Instr {
    Instr::Call(Call {
        callee: Callee::Procedure(procedure),
        pushed,
        registers,
        to,
    })
}

/// A call of the procedure with a code number.
pub fn call_code(code: Operand, pushed: u8, registers: Registers) -> Instr {
    Instr::Call(Call {
        callee: Callee::Code(code),
        pushed,
        registers,
        to: None,
    })
}

pub fn passed(width: u8, value: Operand) -> Passed {
    Passed { width, value }
}

/// A result of so many bytes goes to a local.
pub fn target(width: u8, local: u8) -> Option<Target> {
    Some(Target { width, local })
}

/// A return without a result.
pub fn leave() -> Instr {
    Instr::Return(0, Operand::Known(0))
}
