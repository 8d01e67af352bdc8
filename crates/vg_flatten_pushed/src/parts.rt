// The values that wait in two parts: the pushed ones, and those above them.
ghost use Rattle.std.specs.Prelude.{◌≡◌, ◌≤◌, ℕ, ◌++◌, length, reverse, take, drop, IfOk, OnOk};
ghost use Rattle.vg_flatten_shapes.specs.Shapes.{only};
ghost use Rattle.vg_flatten_shapes.specs.Made.{Made};
ghost use Rattle.vg_flatten_shapes.specs.Laying.{Lays};
ghost use Rattle.vg_flatten_pushed.specs.Pushed.{newer, older, all_pushed, onto};

use std::alloc::Global;
use vg_base::{NoMemory, Refusal};
use vg_flatten_shapes::{Fault, Homes, Piece};
use vg_lin::Operand;

/// The values that wait: those above the pushed ones, with the test, if one waits, and the pushed ones.
#[derive(Drop)]
pub struct Parts {
    pub above: Homes,
    pub below: Homes,
}

/// Whether no value waits above the pushed ones, where so many may be pushed.
pub fn all_pushed(most: u16, homes: &Homes) -> bool
    ensures { result ≡ all_pushed most homes.now }
{
    let count = homes.len();
    count < most as usize || (count == most as usize && homes.truth().is_none())
}

/// The values that wait in two parts, where so many may be pushed. Where fewer wait a test is forgotten.
#[tactic(auto, using(crate::proofs::Parting::newer_high, crate::proofs::Parting::newer_low, crate::proofs::Parting::older_low))]
pub fn part(alloc: Global, most: u16, homes: Homes) -> Result<Parts, NoMemory>
    ensures above { IfOk result (λ parts. parts.above ≡ newer most homes) }
    ensures below { IfOk result (λ parts. parts.below ≡ only (older most homes)) }
{
    let count = homes.len();
    if count < most as usize {
        let mut below = homes;
        below.forget_truth();
        return Ok(Parts {
            above: Homes::new(alloc),
            below,
        });
    }
    part_at(alloc, count - most as usize, homes)
}

/// The same, where so many of the newest values are not pushed.
#[tactic(auto, using(crate::proofs::Parting::never_none, crate::proofs::Parting::taken_row, crate::proofs::Parting::taken_rest))]
fn part_at(alloc: Global, count: usize, homes: Homes) -> Result<Parts, NoMemory>
    requires { count ≤ length homes.homes }
    ensures above { IfOk result (λ parts. parts.above ≡ record { truth = homes.truth; homes = take count homes.homes }) }
    ensures below { IfOk result (λ parts. parts.below ≡ only (drop count homes.homes)) }
{
    let truth = homes.truth();
    let mut below = homes;
    below.forget_truth();
    match below.take_newest(alloc, count)? {
        None => unreachable!(),
        Some(newest) => {
            let mut above = Homes::new(alloc);
            push_all(&mut above, newest.as_slice())?;
            if let Some(test) = truth {
                above.wait_for(test);
            }
            Ok(Parts { above, below })
        }
    }
}

/// Homes above others, the newest last.
#[tactic(auto, using(crate::proofs::Parting::pushes_on))]
fn push_all(homes: &mut Homes, news: &[Operand]) -> Result<(), NoMemory>
    ensures { OnOk result (homes.new ≡ record { truth = homes.old.truth; homes = reverse news.now ++ homes.old.homes }) }
{
    'news: for home in news {
        homes.push(*home)?;
    }
    Ok(())
}

/// What was made of the newer values, above the pushed ones; or why it was not made.
pub fn onto(
    alloc: Global,
    made: Result<Piece, Refusal<Fault>>,
    below: Homes,
) -> Result<Piece, Refusal<Fault>>
    ensures { (at : ℕ) (m : Made) → Lays made at m → Lays result at (onto below.homes m) }
{
    let piece = made?;
    let homes = joined(alloc, piece.homes, below)?;
    Ok(Piece {
        code: piece.code,
        homes,
    })
}

/// Homes above others, of which no test is kept.
#[tactic(auto, using(crate::proofs::Parting::never_none, crate::proofs::Parting::taken_all))]
fn joined(alloc: Global, above: Homes, below: Homes) -> Result<Homes, NoMemory>
    ensures { IfOk result (λ s. s ≡ record { truth = above.truth; homes = above.homes ++ below.homes }) }
{
    let truth = above.truth();
    let count = above.len();
    let mut above = above;
    match above.take_newest(alloc, count)? {
        None => unreachable!(),
        Some(newest) => {
            let mut homes = below;
            homes.forget_truth();
            push_all(&mut homes, newest.as_slice())?;
            if let Some(test) = truth {
                homes.wait_for(test);
            }
            Ok(homes)
        }
    }
}
