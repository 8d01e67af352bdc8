// Procedures that may be wrong ones.
ghost use Rattle.std.specs.Prelude.{◌≡◌, ◌<◌, ◌^◌, true, if◌then◌else◌, IfOk, IfSome, Some, None, slice_get};
ghost use Rattle.vg_lin_states.specs.Narrow.{is_narrow_plain, is_narrow, are_narrow};

use std::alloc::Global;
use std::marker::Model;
use vg_base::{NoMemory, Row};
use vg_lin::{Instr, LinProc, Plain};

/// A procedure of linear code, sound or not. At most four bytes are computed, loaded, stored or compared in it.
#[derive(Drop)]
pub struct AnyProc {
    method: Option<u16>,
    params: u8,
    result_width: u8,
    widths: Row<u8>,
    code: Row<Instr>,
}

impl Model for AnyProc {
    ghost use Rattle.std.specs.Prelude.{◌≡◌, true};
    ghost use Rattle.vg_lin.specs.Program.{Procedure};
    ghost use Rattle.vg_lin_states.specs.Narrow.{are_narrow};

    ghost Value = { Procedure };

    ghost view = { λ p. record { method = p.method; params = p.params; result = p.result_width; widths = p.widths; code = p.code } };

    ghost invariant = { λ p. are_narrow p.code ≡ true };
}

impl AnyProc {
    /// The procedure of these parts; none exactly where more than four bytes are computed, loaded, stored or compared.
    pub fn new(
        method: Option<u16>,
        params: u8,
        result_width: u8,
        widths: Row<u8>,
        code: Row<Instr>,
    ) -> Option<Self>
        ensures { result ≡ (if are_narrow code
            then Some (record { method = method; params = params; result = result_width; widths = widths; code = code }) else None) }
    {
        if !are_narrow(code.as_slice()) {
            return None;
        }
        Some(AnyProc {
            method,
            params,
            result_width,
            widths,
            code,
        })
    }

    /// A copy of a sound procedure.
    #[tactic(auto, using(crate::proofs::Narrows::sound_narrow))]
    pub fn of(alloc: Global, sound: &LinProc) -> Result<Self, NoMemory>
        ensures { IfOk result (λ p. p ≡ sound.now) }
    {
        sound.keeps();
        Ok(AnyProc {
            method: sound.method(),
            params: sound.params(),
            result_width: sound.result_width(),
            widths: Row::from_slice(alloc, sound.widths())?,
            code: Row::from_vec(Vec::from_slice(alloc, sound.code())?),
        })
    }

    /// The method that the procedure is, by its number in the order of the text.
    pub fn method(&self) -> Option<u16>
        ensures { result ≡ self.now.method }
    {
        self.method
    }

    /// How many of the first locals are parameters.
    pub fn params(&self) -> u8
        ensures { result ≡ self.now.params }
    {
        self.params
    }

    /// How many bytes its result has.
    pub fn result_width(&self) -> u8
        ensures { result ≡ self.now.result }
    {
        self.result_width
    }

    /// The widths of the locals in bytes.
    pub fn widths(&self) -> &[u8]
        ensures { result.now ≡ self.now.widths }
    {
        self.widths.as_slice()
    }

    /// The instruction at a place.
    pub fn instr(&self, place: usize) -> Option<Instr>
        ensures is { result ≡ slice_get self.now.code place }
        ensures narrow { IfSome result (λ i. is_narrow i ≡ true) }
        ensures low { IfSome result (λ _. place < 2 ^ 63) }
    {
        instr_at(self.code.as_slice(), place)
    }
}

fn instr_at(code: &[Instr], place: usize) -> Option<Instr>
    ensures is { result ≡ slice_get code.now place }
    ensures low { IfSome result (λ _. place < 2 ^ 63) }
{
    code.get(place).copied()
}

fn are_narrow(code: &[Instr]) -> bool
    ensures { result ≡ are_narrow code.now }
{
    match code {
        [] => true,
        [instr, rest @ ..] => is_narrow(*instr) && are_narrow(rest),
    }
}

fn is_narrow(instr: Instr) -> bool
    ensures { result ≡ is_narrow instr }
{
    match instr {
        Instr::Plain(plain) => is_narrow_plain(plain),
        Instr::When(test, _) => test.width <= 4,
        Instr::Unless(test, _) => test.width <= 4,
        _ => true,
    }
}

fn is_narrow_plain(instr: Plain) -> bool
    ensures { result ≡ is_narrow_plain instr }
{
    match instr {
        Plain::Compute(computation) => computation.width <= 4,
        Plain::Load(_, width, _, _) => width <= 4,
        Plain::Store(width, _, _) => width <= 4,
        _ => true,
    }
}
