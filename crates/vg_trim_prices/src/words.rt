// How many words instructions take, about, by where locals lie.
use crate::seating::{Laid, moves};
use vg_lin::{
    Address, Call, Callee, Comparison, Computation, Instr, Memory, Operand, Operator, Passed,
    Plain, Registers, Test,
};
use vg_trim_flow::{bytes_of, smaller};

// The first scratch register of values that are made.
const MADE: u8 = 22;

/// Whether an instruction lets other procedures or routines run.
pub fn is_call(widths: &[u8], instr: Instr) -> bool {
    match instr {
        Instr::Call(_) => true,
        Instr::Idle => true,
        Instr::Plain(Plain::Compute(c)) => is_routine(widths, c),
        _ => false,
    }
}

// Whether a computation becomes a call of a routine.
fn is_routine(widths: &[u8], c: Computation) -> bool {
    match c.operator {
        Operator::Divide => true,
        Operator::Remainder => true,
        Operator::Times => is_long_product(widths, c),
        Operator::ShiftLeft => !is_known(c.right),
        Operator::ShiftRight => !is_known(c.right),
        _ => false,
    }
}

fn is_known(value: Operand) -> bool {
    match value {
        Operand::Known(_) => true,
        Operand::Local(_) => false,
    }
}

// Whether a product is neither one of two bytes nor by a number that is a power of 2 or next to one.
fn is_long_product(widths: &[u8], c: Computation) -> bool {
    let is_short = is_factor(c.left)
        || is_factor(c.right)
        || (bytes_of(widths, c.left) == 1 && bytes_of(widths, c.right) == 1);
    !is_short
}

fn is_factor(value: Operand) -> bool {
    match value {
        Operand::Known(number) => {
            number == 0
                || is_power(number)
                || is_power(number - 1)
                || is_power(number.saturating_add(1))
        }
        Operand::Local(_) => false,
    }
}

fn is_power(number: u32) -> bool {
    0 < number && number & (number - 1) == 0
}

// The words that bring so many bytes of a value into registers from one on.
fn brings(laid: &Laid<'_>, value: Operand, register: u8, count: u8) -> usize {
    match value {
        Operand::Known(number) => known_words(number, register, count),
        Operand::Local(local) => match laid.seat(local) {
            Some(seat) => moves(seat, register, width_in(laid, local), count),
            None => usize::from(count),
        },
    }
}

// The words that bring so many bytes of a number there: four that are two bytes twice take three, from an even register on.
fn known_words(number: u32, register: u8, count: u8) -> usize {
    let is_twice = count == 4 && register % 2 == 0 && number % 65_536 == number / 65_536;
    if is_twice { 3 } else { usize::from(count) }
}

// The words that bring a value into Z: from registers at once, and else by X.
fn brings_z(laid: &Laid<'_>, value: Operand) -> usize {
    match value {
        Operand::Known(_) => 3,
        Operand::Local(local) => match laid.seat(local) {
            Some(seat) => moves(seat, 30, width_in(laid, local), 2),
            None => 3,
        },
    }
}

fn width_in(laid: &Laid<'_>, local: u8) -> u8 {
    (laid.width(local) % 256) as u8
}

// The words after which so many bytes of a value are in registers, wherever these are.
fn finds(laid: &Laid<'_>, value: Operand, count: u8) -> usize {
    match value {
        Operand::Known(number) => known_bytes(number, count),
        Operand::Local(local) => match laid.seat(local) {
            Some(_) => 0,
            None => usize::from(smaller(width_in(laid, local), count)),
        },
    }
}

// How many of the low bytes of a number are not zero.
fn known_bytes(number: u32, count: u8) -> usize {
    let mut words = 0usize;
    let mut rest = number;
    for _byte in 0..count {
        if rest % 256 != 0 {
            words = words.saturating_add(1);
        }
        rest = rest / 256;
    }
    words
}

// How many low bytes of a number have only zeros behind them.
fn bytes_in(number: u32) -> u8 {
    if number == 0 {
        0
    } else if number < 256 {
        1
    } else if number < 65_536 {
        2
    } else if number < 16_777_216 {
        3
    } else {
        4
    }
}

// The words that bring so many bytes from scratch registers to a local.
fn gives(laid: &Laid<'_>, to: u8, register: u8, count: u8) -> usize {
    match laid.seat(to) {
        Some(seat) => moves(register, seat, count, width_in(laid, to)),
        None => laid.width(to),
    }
}

// The words behind those that made so many bytes, in the registers of a local if it has some.
fn settles(laid: &Laid<'_>, to: u8, count: u8) -> usize {
    match laid.seat(to) {
        Some(_) => laid.width(to).saturating_sub(usize::from(count)),
        None => laid.width(to),
    }
}

/// How many words an instruction takes, about.
pub fn words_of(laid: &Laid<'_>, instr: Instr) -> usize {
    match instr {
        Instr::Plain(plain) => plain_words(laid, plain),
        Instr::When(test, _) => test_words(laid, test),
        Instr::Unless(test, _) => test_words(laid, test),
        Instr::Jump(_) => 1,
        Instr::Call(call) => call_words(laid, call),
        Instr::Return(width, value) => {
            brings(laid, value, MADE, width).saturating_add(laid.exit())
        }
        Instr::Idle => 2,
    }
}

fn plain_words(laid: &Laid<'_>, plain: Plain) -> usize {
    match plain {
        Plain::Copy(to, value) => copy_words(laid, to, value),
        Plain::Compute(c) => computed_words(laid, c),
        Plain::Load(memory, width, to, address) => load_words(laid, memory, width, to, address),
        Plain::Store(width, address, value) => store_words(laid, width, address, value),
        Plain::ReadDevice(to, _) => settles(laid, to, 1).saturating_add(1),
        Plain::WriteDevice(_, value) => finds(laid, value, 1).saturating_add(1),
        Plain::Push(width, value) => finds(laid, value, width).saturating_add(usize::from(width)),
        Plain::Pop(width, to) => { gives(laid, to, MADE, width).saturating_add(usize::from(width)) }
        Plain::Find(_, to, value) => brings(laid, value, 24, 2)
            .saturating_add(2)
            .saturating_add(gives(laid, to, MADE, 2)),
        Plain::CodeOf(_, to) => gives(laid, to, MADE, 2).saturating_add(2),
        _ => 2,
    }
}

fn copy_words(laid: &Laid<'_>, to: u8, value: Operand) -> usize {
    match value {
        Operand::Known(number) => {
            let count = smaller(bytes_in(number), width_in(laid, to));
            gives(laid, to, MADE, count).saturating_add(known_words(number, MADE, count))
        }
        Operand::Local(from) => match laid.seat(from) {
            Some(seat) => gives_from(laid, to, seat, from),
            None => settles(laid, to, width_in(laid, to)).saturating_add(laid.width(to)),
        },
    }
}

// The words that bring a local from its registers to another one.
fn gives_from(laid: &Laid<'_>, to: u8, seat: u8, from: u8) -> usize {
    gives(laid, to, seat, width_in(laid, from))
}

fn computed_words(laid: &Laid<'_>, c: Computation) -> usize {
    if is_routine(laid.widths, c) {
        return routine_words(laid, c);
    }
    let count = smaller(c.width, width_in(laid, c.to));
    match c.operator {
        Operator::ShiftLeft => shifted_words(laid, c, count, amount_of(c.right)),
        Operator::ShiftRight => shifted_words(laid, c, c.width, amount_of(c.right)),
        Operator::Times => product_words(laid, c, count),
        _ => bytewise_words(laid, c, count),
    }
}

fn amount_of(value: Operand) -> u32 {
    match value {
        Operand::Known(number) => number,
        Operand::Local(_) => 0,
    }
}

// The words of a shift by so many bits, in the registers of a local or through scratch ones: bytes that are left behind or become zeros do not come.
fn shifted_words(laid: &Laid<'_>, c: Computation, count: u8, bits: u32) -> usize {
    let each = (bits % 8) as usize;
    let whole = smaller((bits / 8 % 256) as u8, count);
    let moved = count.saturating_sub(whole);
    let stands = whole == 0 && is_it(c.left, c.to) && laid.seat(c.to).is_some();
    let comes = if stands {
        0
    } else {
        brings(laid, c.left, seat_or(laid, c.to), moved)
    };
    comes
        .saturating_add(each.saturating_mul(usize::from(moved)))
        .saturating_add(settles(laid, c.to, moved))
}

fn product_words(laid: &Laid<'_>, c: Computation, count: u8) -> usize {
    let by_left = log_of(c.left);
    let by_right = log_of(c.right);
    let bits = if by_left < by_right {
        by_right
    } else {
        by_left
    };
    shifted_words(laid, c, count, bits)
}

// How many bits a shift has that stands for a product by a number, about.
fn log_of(value: Operand) -> u32 {
    match value {
        Operand::Known(number) => bits_in(number),
        Operand::Local(_) => 0,
    }
}

fn bits_in(number: u32) -> u32 {
    let mut bits = 0u32;
    let mut rest = number / 2;
    for _bit in 0..32u8 {
        if rest > 0 {
            bits = bits.saturating_add(1);
        }
        rest = rest / 2;
    }
    bits
}

// The words of a computation byte by byte.
fn bytewise_words(laid: &Laid<'_>, c: Computation, count: u8) -> usize {
    let bytes = usize::from(count);
    if works_there(laid, c) {
        let comes = if is_it(c.left, c.to) {
            0
        } else {
            brings(laid, c.left, seat_or(laid, c.to), count)
        };
        return comes
            .saturating_add(finds(laid, c.right, count))
            .saturating_add(bytes)
            .saturating_add(laid.width(c.to).saturating_sub(bytes));
    }
    let finds_right = if is_sum(c.operator) && is_known(c.right) {
        0
    } else {
        finds(laid, c.right, count)
    };
    brings(laid, c.left, MADE, count)
        .saturating_add(finds_right)
        .saturating_add(bytes)
        .saturating_add(gives(laid, c.to, MADE, count))
}

fn seat_or(laid: &Laid<'_>, local: u8) -> u8 {
    match laid.seat(local) {
        Some(seat) => seat,
        None => MADE,
    }
}

fn is_sum(operator: Operator) -> bool {
    match operator {
        Operator::Plus => true,
        Operator::Minus => true,
        _ => false,
    }
}

fn is_it(value: Operand, local: u8) -> bool {
    match value {
        Operand::Local(other) => other == local,
        Operand::Known(_) => false,
    }
}

// Whether a computation works in the registers of its local.
fn works_there(laid: &Laid<'_>, c: Computation) -> bool {
    laid.seat(c.to).is_some()
        && !is_it(c.right, c.to)
        && (is_it(c.left, c.to) || (!is_known(c.left) && !is_known(c.right)))
}

// The words of a call of a routine: its arguments go in registers where there are two.
fn routine_words(laid: &Laid<'_>, c: Computation) -> usize {
    let result = gives(laid, c.to, MADE, 4).saturating_add(1);
    match c.operator {
        Operator::Times => result.saturating_add(carried_words(laid, c)),
        Operator::ShiftLeft => result.saturating_add(carried_words(laid, c)),
        _ => {
            let drops = if laid.is_pointed { 2 } else { 9 };
            result
                .saturating_add(finds(laid, c.left, 4))
                .saturating_add(finds(laid, c.right, 4))
                .saturating_add(10)
                .saturating_add(drops)
        }
    }
}

fn carried_words(laid: &Laid<'_>, c: Computation) -> usize {
    brings(laid, c.left, 18, 4).saturating_add(brings(laid, c.right, MADE, 4))
}

// Whether bytes at an address are reached by instructions that have it.
fn is_near(width: u8, address: Address) -> bool {
    is_known(address.index) && width <= 2
}

// The words after which a pointer has an address.
fn points(laid: &Laid<'_>, address: Address) -> usize {
    if is_known(address.index) {
        return 2;
    }
    let base = if address.base == 0 { 0 } else { 2 };
    brings(laid, address.index, 26, 2).saturating_add(base)
}

// The words after which Z has one.
fn points_z(laid: &Laid<'_>, address: Address) -> usize {
    if is_known(address.index) {
        return 2;
    }
    let base = if address.base == 0 { 0 } else { 2 };
    brings_z(laid, address.index).saturating_add(base)
}

fn load_words(laid: &Laid<'_>, memory: Memory, width: u8, to: u8, address: Address) -> usize {
    let bytes = usize::from(width);
    let reached = match memory {
        Memory::Ram => {
            if is_near(width, address) {
                bytes
            } else {
                points(laid, address)
            }
        }
        Memory::Flash => points_z(laid, address),
    };
    reached
        .saturating_add(bytes)
        .saturating_add(settles(laid, to, width))
}

fn store_words(laid: &Laid<'_>, width: u8, address: Address, value: Operand) -> usize {
    let bytes = usize::from(width);
    let reached = if is_near(width, address) {
        bytes
    } else {
        points(laid, address)
    };
    reached
        .saturating_add(finds(laid, value, width))
        .saturating_add(bytes)
}

fn test_words(laid: &Laid<'_>, test: Test) -> usize {
    let left = finds(laid, test.left, test.width).saturating_add(1);
    if is_joined(laid, test) {
        return left
            .saturating_add(usize::from(test.width))
            .saturating_sub(1);
    }
    left.saturating_add(finds(laid, test.right, test.width))
        .saturating_add(usize::from(test.width))
}

// Whether the bytes of a local in the frame are joined to be compared with zero.
fn is_joined(laid: &Laid<'_>, test: Test) -> bool {
    let is_same = match test.comparison {
        Comparison::Same => true,
        _ => false,
    };
    let is_zero = match test.right {
        Operand::Known(number) => number == 0,
        Operand::Local(_) => false,
    };
    let lies_there = match test.left {
        Operand::Local(local) => laid.seat(local).is_none(),
        Operand::Known(_) => false,
    };
    is_same && is_zero && lies_there && test.width > 1
}

fn call_words(laid: &Laid<'_>, call: Call) -> usize {
    let aims = match call.callee {
        Callee::Procedure(_) => 1,
        Callee::Code(value) => brings_z(laid, value).saturating_add(1),
    };
    let result = match call.to {
        Some(target) => gives(laid, target.local, MADE, target.width),
        None => 0,
    };
    passed_words(laid, call.registers)
        .saturating_add(aims)
        .saturating_add(result)
}

// The words of arguments that go in registers, from r18 on.
fn passed_words(laid: &Laid<'_>, registers: Registers) -> usize {
    match registers {
        Registers::Empty => 0,
        Registers::One(a) => carries(laid, a, 18),
        Registers::Two(a, b) => {
            carries(laid, a, 18).saturating_add(carries(laid, b, behind(18, a)))
        }
        Registers::Three(a, b, c) => {
            let third = behind(behind(18, a), b);
            carries(laid, a, 18)
                .saturating_add(carries(laid, b, behind(18, a)))
                .saturating_add(carries(laid, c, third))
        }
        Registers::Four(a, b, c, d) => {
            let third = behind(behind(18, a), b);
            carries(laid, a, 18)
                .saturating_add(carries(laid, b, behind(18, a)))
                .saturating_add(carries(laid, c, third))
                .saturating_add(carries(laid, d, behind(third, c)))
        }
    }
}

fn carries(laid: &Laid<'_>, passed: Passed, register: u8) -> usize {
    brings(laid, passed.value, register, passed.width)
}

fn behind(register: u8, passed: Passed) -> u8 {
    register.saturating_add(passed.width)
}
