// The parts of a program of constants, by their spelling.
ghost use Rattle.std.specs.Prelude.{◌≡◌, ◌++◌, ℕ, IfSome, IfNone, IfOk, Err, List, map, flat_map};
ghost use Rattle.vg_first_text.specs.FirstText.{First, head_pieces, assignment_pieces, middle_pieces, register_pieces};
ghost use Rattle.vg_first_text.specs.FirstText.{tail_pieces, first_pieces};
ghost use Rattle.vg_first_text.specs.FirstViews.{assignment_view, register_view, program_view, IsBehindAssignments, IsBehindRegisters};
ghost use Rattle.vg_first_text.specs.Pieces.{Piece, pieces};

use crate::first_text::NotFirst;
use crate::first_text::shape::{are_of_kinds, split_kinds, text_of};
use std::alloc::Global;
use vg_base::{NoMemory, Refusal};
use vg_syntax::{Kind, Token};

// component C { method m ( ) {
const HEAD: [Kind; 8] = [
    Kind::Component,
    Kind::Name,
    Kind::LeftBrace,
    Kind::Method,
    Kind::Name,
    Kind::LeftParen,
    Kind::RightParen,
    Kind::LeftBrace,
];

// D . R = H ;
const ASSIGNMENT: [Kind; 6] = [
    Kind::Name,
    Kind::Dot,
    Kind::Name,
    Kind::Assign,
    Kind::Number,
    Kind::Semicolon,
];

// } } device D {
const MIDDLE: [Kind; 5] = [
    Kind::RightBrace,
    Kind::RightBrace,
    Kind::Device,
    Kind::Name,
    Kind::LeftBrace,
];

// register R = N ;
const REGISTER: [Kind; 5] = [
    Kind::Register,
    Kind::Name,
    Kind::Assign,
    Kind::Number,
    Kind::Semicolon,
];

// } program P { entry main = C . m ; }
const TAIL: [Kind; 12] = [
    Kind::RightBrace,
    Kind::Program,
    Kind::Name,
    Kind::LeftBrace,
    Kind::Entry,
    Kind::Name,
    Kind::Assign,
    Kind::Name,
    Kind::Dot,
    Kind::Name,
    Kind::Semicolon,
    Kind::RightBrace,
];

// The names before the assignments.
#[derive(Clone, Copy)]
pub(crate) struct Head<'a> {
    pub(crate) component: &'a [u8],
    pub(crate) method: &'a [u8],
}

// The names and digits of an assignment.
#[derive(Clone, Copy)]
pub(crate) struct Assignment<'a> {
    pub(crate) device: &'a [u8],
    pub(crate) register: &'a [u8],
    pub(crate) digits: &'a [u8],
}

// The name and digits of a register.
#[derive(Clone, Copy)]
pub(crate) struct Register<'a> {
    pub(crate) name: &'a [u8],
    pub(crate) digits: &'a [u8],
}

// The names behind the registers.
#[derive(Clone, Copy)]
pub(crate) struct Tail<'a> {
    pub(crate) program: &'a [u8],
    pub(crate) key: &'a [u8],
    pub(crate) component: &'a [u8],
    pub(crate) method: &'a [u8],
}

// All names and numbers of the program.
#[derive(Drop)]
pub(crate) struct Program<'a> {
    pub(crate) head: Head<'a>,
    pub(crate) assignments: Vec<Assignment<'a>>,
    pub(crate) device: &'a [u8],
    pub(crate) registers: Vec<Register<'a>>,
    pub(crate) tail: Tail<'a>,
}

/// The names and numbers that the tokens of a text spell.
pub(crate) fn read_program<'a>(
    alloc: Global,
    bytes: &'a [u8],
    tokens: &'a [Token],
) -> Result<Program<'a>, Refusal<NotFirst>>
    ensures ok { IfOk result (λ p. pieces bytes.entry.now tokens.entry.now ≡ first_pieces (program_view p)) }
    ensures not { (why : NotFirst) → result ≡ Err (Refusal.Fault why) → (f : First) → pieces bytes.entry.now tokens.entry.now ≡ first_pieces f → ⊥ }
{
    let Some((head, behind_head)) = read_head(bytes, tokens) else {
        return Err(Refusal::Fault(NotFirst));
    };
    let (assignments, behind_assignments) = read_assignments(alloc, bytes, behind_head)?;
    let Some((device, behind_middle)) = read_middle(bytes, behind_assignments) else {
        return Err(Refusal::Fault(NotFirst));
    };
    let (registers, behind_registers) = read_registers(alloc, bytes, behind_middle)?;
    let Some(tail) = read_tail(bytes, behind_registers) else {
        return Err(Refusal::Fault(NotFirst));
    };
    Ok(Program {
        head,
        assignments,
        device,
        registers,
        tail,
    })
}

// The names before the assignments, and the tokens behind them.
fn read_head<'a>(bytes: &'a [u8], tokens: &'a [Token]) -> Option<(Head<'a>, &'a [Token])>
    ensures some { IfSome result (λ r. pieces bytes.entry.now tokens.entry.now
        ≡ head_pieces r.0.component.now r.0.method.now ++ pieces bytes.entry.now r.1.now) }
    ensures none { IfNone result ((component method : List ℕ) (more : List Piece)
        → pieces bytes.entry.now tokens.entry.now ≡ head_pieces component method ++ more → ⊥) }
{
    let Some((front, rest)) = split_kinds(tokens, &HEAD) else {
        return None;
    };
    let [_, component, _, _, method, ..] = front else {
        return None;
    };
    let head = Head {
        component: text_of(bytes, component),
        method: text_of(bytes, method),
    };
    Some((head, rest))
}

// The assignments in front, and the tokens behind them.
fn read_assignments<'a>(
    alloc: Global,
    bytes: &'a [u8],
    tokens: &'a [Token],
) -> Result<(Vec<Assignment<'a>>, &'a [Token]), NoMemory>
    ensures all { IfOk result (λ r. pieces bytes.entry.now tokens.entry.now
        ≡ flat_map assignment_pieces (map assignment_view r.0.items) ++ pieces bytes.entry.now r.1.now) }
    ensures rest { IfOk result (λ r. IsBehindAssignments (pieces bytes.entry.now r.1.now)) }
{
    let mut found = Vec::new(alloc);
    let mut rest = tokens;
    while let Some((assignment, behind)) = read_assignment(bytes, rest) {
        found.push(assignment)?;
        rest = behind;
    }
    Ok((found, rest))
}

// The assignment in front, and the tokens behind it.
fn read_assignment<'a>(
    bytes: &'a [u8],
    tokens: &'a [Token],
) -> Option<(Assignment<'a>, &'a [Token])>
    ensures some { IfSome result (λ r. pieces bytes.entry.now tokens.entry.now ≡ assignment_pieces (assignment_view r.0) ++ pieces bytes.entry.now r.1.now) }
    ensures none { IfNone result (IsBehindAssignments (pieces bytes.entry.now tokens.entry.now)) }
{
    let Some((front, rest)) = split_kinds(tokens, &ASSIGNMENT) else {
        return None;
    };
    let [device, _, register, _, digits, ..] = front else {
        return None;
    };
    let assignment = Assignment {
        device: text_of(bytes, device),
        register: text_of(bytes, register),
        digits: text_of(bytes, digits),
    };
    Some((assignment, rest))
}

// The name of the device, and the tokens behind its opening brace.
fn read_middle<'a>(bytes: &'a [u8], tokens: &'a [Token]) -> Option<(&'a [u8], &'a [Token])>
    ensures some { IfSome result (λ r. pieces bytes.entry.now tokens.entry.now ≡ middle_pieces r.0.now ++ pieces bytes.entry.now r.1.now) }
    ensures none { IfNone result ((device : List ℕ) (more : List Piece) → pieces bytes.entry.now tokens.entry.now ≡ middle_pieces device ++ more → ⊥) }
{
    let Some((front, rest)) = split_kinds(tokens, &MIDDLE) else {
        return None;
    };
    let [_, _, _, device, ..] = front else {
        return None;
    };
    Some((text_of(bytes, device), rest))
}

// The registers in front, and the tokens behind them.
fn read_registers<'a>(
    alloc: Global,
    bytes: &'a [u8],
    tokens: &'a [Token],
) -> Result<(Vec<Register<'a>>, &'a [Token]), NoMemory>
    ensures all { IfOk result (λ r. pieces bytes.entry.now tokens.entry.now
        ≡ flat_map register_pieces (map register_view r.0.items) ++ pieces bytes.entry.now r.1.now) }
    ensures rest { IfOk result (λ r. IsBehindRegisters (pieces bytes.entry.now r.1.now)) }
{
    let mut found = Vec::new(alloc);
    let mut rest = tokens;
    while let Some((register, behind)) = read_register(bytes, rest) {
        found.push(register)?;
        rest = behind;
    }
    Ok((found, rest))
}

// The register in front, and the tokens behind it.
fn read_register<'a>(bytes: &'a [u8], tokens: &'a [Token]) -> Option<(Register<'a>, &'a [Token])>
    ensures some { IfSome result (λ r. pieces bytes.entry.now tokens.entry.now ≡ register_pieces (register_view r.0) ++ pieces bytes.entry.now r.1.now) }
    ensures none { IfNone result (IsBehindRegisters (pieces bytes.entry.now tokens.entry.now)) }
{
    let Some((front, rest)) = split_kinds(tokens, &REGISTER) else {
        return None;
    };
    let [_, name, _, digits, ..] = front else {
        return None;
    };
    let register = Register {
        name: text_of(bytes, name),
        digits: text_of(bytes, digits),
    };
    Some((register, rest))
}

// The names behind the registers, where nothing follows.
fn read_tail<'a>(bytes: &'a [u8], tokens: &'a [Token]) -> Option<Tail<'a>>
    ensures some { IfSome result (λ r. pieces bytes.entry.now tokens.entry.now ≡ tail_pieces r.program.now r.key.now r.component.now r.method.now) }
    ensures none { IfNone result ((program key component method : List ℕ) → pieces bytes.entry.now tokens.entry.now ≡ tail_pieces program key component method
        → ⊥) }
{
    if !are_of_kinds(tokens, &TAIL) {
        return None;
    }
    let [_, _, program, _, _, key, _, component, _, method, ..] = tokens else {
        return None;
    };
    Some(Tail {
        program: text_of(bytes, program),
        key: text_of(bytes, key),
        component: text_of(bytes, component),
        method: text_of(bytes, method),
    })
}
