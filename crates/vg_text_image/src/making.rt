// From a text that fits to the flash of its image.
ghost use Rattle.std.specs.Prelude.{◌≡◌, ◌⊎◌, ◌<◌, ◌≤◌, ℕ, List, length, Err, IfErr, IfOk};
ghost use Rattle.std.specs.List.{AllByRecursion};
ghost use Rattle.vg_base.specs.Limits.{flash_bytes};
ghost use Rattle.vg_layout.specs.Few.{IsFew};
ghost use Rattle.vg_compile.specs.Compile.{IsCauseFor as IsCauseIn};
ghost use Rattle.vg_text_image.specs.Made.{CanCompile, IsCalled, IsCauseFor, IsCompiledOf, IsRefusedFor, IsUnbuiltAsSaid};
ghost use Rattle.vg_text_image.specs.Made.{LacksAsSaid, LacksFrames, LacksHandlers, LacksLinear, NeedsAsSaid, NeedsOf};

use crate::unmade::Unmade;
use avr_isa::Image;
use std::alloc::Global;
use vg_base::{NoMemory, Refusal, Row};
use vg_compile::{Compiled, Linked, NoImage, compile};
use vg_costs::method_costs;
use vg_fits_given::Fitted;
use vg_layout::{CodePiece, StackBound};

/// The flash of the image of a text, and what its layout tells.
#[derive(Drop)]
pub struct TextImage {
    pub flash: Image,
    /// The bytes of the static area, which begins at the data address 0x0100.
    pub static_bytes: u16,
    /// How much stack is enough for each run.
    pub bound: StackBound,
    /// The word address of the piece of code in which the program waits for interrupts. Its SLEEP is the second word.
    pub idle: u16,
    /// The pieces of its code, by ascending addresses.
    pub pieces: Row<CodePiece>,
}

/// The image of a text that starts, whose live methods make nothing and which fits, with a stack of so many bytes.
///
/// The machine does in it what the text does from its initialised components, for all device reads and interrupts and with every stack for which there is room
/// above the static area, and which is no smaller than the bound where there is one; only where calls go round, and those that are active cost more than the
/// stack, may it reach below the floor first.
///
/// It refuses what `compile` refuses. Where that is for the stack, calls do not go round, and what they are said to need is at most four more than what the
/// methods of some way of calls cost. Where it has no linear code, that is of what was packed of it. Where no image is built, what was packed of it has a
/// linear program in which no procedure is trimmed, and either the costs of the text's methods cannot pay that, or an interrupt cannot call each handler of it.
pub fn image_of(alloc: Global, fitted: &Fitted, stack: u16) -> Result<TextImage, Refusal<Unmade>>
    requires { CanCompile fitted.now }
    ensures image { IfOk result (IsCompiledOf fitted.now) }
    ensures few { IfOk result (λ image. IsFew stack image.bound) }
    ensures full { (words : ℕ) → result ≡ Err (Refusal.Fault (Unmade.CodeFull words)) → 65536 ≤ words }
    ensures deep { (need : ℕ) → result ≡ Err (Refusal.Fault (Unmade.StackFull need)) → stack < need }
    ensures calls { (need : ℕ) → result ≡ Err (Refusal.Fault (Unmade.StackFull need)) → NeedsOf fitted.now need }
    ensures linear { result ≡ Err (Refusal.Fault Unmade.NotLinear) → LacksLinear fitted.now }
    ensures built { result ≡ Err (Refusal.Fault Unmade.NotBuilt) → LacksFrames fitted.now ⊎ LacksHandlers fitted.now }
{
    compiled(alloc, fitted, stack)
}

// The same, said case by case.
fn compiled(alloc: Global, fitted: &Fitted, stack: u16) -> Result<TextImage, Refusal<Unmade>>
    requires { CanCompile fitted.now }
    ensures image { IfOk result (IsCompiledOf fitted.now) }
    ensures few { IfOk result (λ image. IsFew stack image.bound) }
    ensures refused { IsRefusedFor stack result }
    ensures calls { IfErr result (NeedsAsSaid fitted.now) }
    ensures linear { IfErr result (LacksAsSaid fitted.now) }
    ensures built { IfErr result (IsUnbuiltAsSaid fitted.now) }
{
    let start = &fitted.alive.start;
    let costs = method_costs(alloc, &start.tree)?;
    match compile(
        alloc,
        &start.program,
        &start.heap,
        &fitted.alive.live,
        &fitted.placed.numbers,
        &fitted.placed.columns,
        costs.as_slice(),
        stack,
    ) {
        Ok(made) => Ok(laid(made, fitted.placed.columns.static_bytes)),
        Err(Refusal::Fault(why)) => Err(Refusal::Fault(unmade(why, stack))),
        Err(Refusal::NoMemory) => Err(Refusal::NoMemory),
    }
}

// What a cause is called here.
fn unmade(why: NoImage, stack: u16) -> Unmade
    requires { IsCauseIn stack why }
    ensures cause { IsCauseFor stack result }
    ensures called { IsCalled why result }
{
    match why {
        NoImage::Full(full) => Unmade::CodeFull { words: full.words },
        NoImage::Deep { need } => Unmade::StackFull { need },
        NoImage::NotLinear(_) => Unmade::NotLinear,
        NoImage::Received | NoImage::Costly => Unmade::NotBuilt,
    }
}

// The image of what is compiled, above a static area of so many bytes.
fn laid(made: Compiled, static_bytes: u16) -> TextImage
    requires { length made.linked.flash ≤ flash_bytes }
    ensures flash { result.flash ≡ made.linked.flash }
    ensures bytes { AllByRecursion (λ b. b < 256) result.flash }
    ensures static_is { result.static_bytes ≡ static_bytes }
    ensures bound { result.bound ≡ made.bound }
    ensures idle { result.idle ≡ made.linked.idle }
{
    let Compiled {
        linked,
        bound,
        pieces,
    } = made;
    let Linked {
        flash,
        codes: _,
        idle,
    } = linked;
    are_bytes(flash.as_slice());
    TextImage {
        flash: Image::from_vec(flash.into_vec()),
        static_bytes,
        bound,
        idle,
        pieces,
    }
}

// That bytes are bytes. It does nothing: only its clause counts.
fn are_bytes(bytes: &[u8])
    ensures { AllByRecursion (λ b. b < 256) bytes.now }
{}
