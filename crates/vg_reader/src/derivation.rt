// From bytes to the derivation of their tree.
ghost use Rattle.std.specs.Prelude.{◌≤◌, IfOk, length};
ghost use Rattle.vg_base.specs.Limits.{text_limit};
ghost use Rattle.vg_syntax.specs.Tokens.{IsTokens};
ghost use Rattle.vg_syntax.specs.Parses.{Sentence};
ghost use Rattle.vg_reader.specs.Derivation.{Derives};

use crate::fault::{ReadFault, fault_at};
use std::alloc::Global;
use vg_base::Refusal;
use vg_grammar::{Step, derive};
use vg_scan::scan;
use vg_syntax::Token;

/// The derivation of a text's tree: its tokens, and the steps that make the tree from them, from the leaves up.
#[derive(Drop)]
pub struct Derivation {
    pub tokens: Vec<Token>,
    pub steps: Vec<Step>,
}

/// The derivation of the one tree of these bytes, or where they cease to be a text of the language with at most 64 open brackets at each place.
///
/// Its time and its memory are linear in the text, and it does not recurse.
pub fn derive_text(alloc: Global, bytes: &[u8]) -> Result<Derivation, Refusal<ReadFault>>
    requires { length bytes.now ≤ text_limit }
    ensures tree { Derives bytes.now result }
    ensures tokens { IfOk result (λ d. IsTokens bytes.now d.tokens.items × Sentence d.tokens.items) }
{
    let tokens = scan(alloc, bytes)?;
    match derive(alloc, &tokens) {
        Ok(steps) => Ok(Derivation { tokens, steps }),
        Err(Refusal::Fault(stop)) => Err(Refusal::Fault(fault_at(bytes, &tokens, stop))),
        Err(Refusal::NoMemory) => Err(Refusal::NoMemory),
    }
}
