// Where waiting values are.
ghost use Rattle.std.specs.Prelude.{◌≡◌, ◌↔◌, ℕ, List, [], ◌∷◌, ◌++◌, reverse, length, true, Option, Some, None, IfOk, OnOk, IsTrue};
ghost use Rattle.std.specs.Option.{option_map};
ghost use Rattle.vg_flatten_shapes.specs.Shapes.{Shape, only, empty, is_empty, same_homes, is_free, same_operand};
ghost use Rattle.vg_flatten_shapes.specs.Popped.{Pops, Takes};

use crate::open::Truth;
use std::alloc::Global;
use std::marker::Model;
use vg_base::{NoMemory, Row};
use vg_lin::Operand;

/// The homes of the values that wait, the newest last; the newest of all may be a test that was not made.
#[derive(Drop)]
pub struct Homes {
    truth: Option<Truth>,
    row: Vec<Operand>,
}

impl Model for Homes {
    ghost Value = { Shape };

    ghost view = { λ s. record { truth = s.truth; homes = reverse s.row.items } };
}

impl Homes {
    pub fn new(alloc: Global) -> Self
        ensures { result ≡ empty }
    {
        Homes {
            truth: None,
            row: Vec::new(alloc),
        }
    }

    /// The test that waits, where the newest value is one.
    pub fn truth(&self) -> Option<Truth>
        ensures { result ≡ self.now.truth }
    {
        self.truth
    }

    /// How many values wait below it.
    pub fn len(&self) -> usize
        ensures { result ≡ length self.now.homes }
    {
        self.row.len()
    }

    /// No test waits.
    pub fn forget_truth(&mut self)
        ensures { self.new ≡ only self.old.homes }
    {
        self.truth = None;
    }

    /// A test waits.
    pub fn wait_for(&mut self, truth: Truth)
        ensures { self.new ≡ record { truth = Some truth; homes = self.old.homes } }
    {
        self.truth = Some(truth);
    }

    pub fn push(&mut self, home: Operand) -> Result<(), NoMemory>
        ensures { OnOk result (self.new ≡ record { truth = self.old.truth; homes = home ∷ self.old.homes }) }
    {
        self.row.push(home)?;
        Ok(())
    }

    pub fn pop(&mut self) -> Option<Operand>
        ensures { Pops result self.old self.new }
    {
        self.row.pop()
    }

    /// So many of the newest homes are taken, the oldest of them first.
    pub fn take_newest(
        &mut self,
        alloc: Global,
        count: usize,
    ) -> Result<Option<Row<Operand>>, NoMemory>
        ensures { IfOk result (λ taken. Takes taken count self.old self.new) }
    {
        let size = self.row.as_slice().len();
        if size < count {
            return Ok(None);
        }
        let kept = size - count;
        let newest = Vec::from_slice(alloc, &self.row.as_slice()[kept..])?;
        self.row.truncate(kept);
        Ok(Some(Row::from_vec(newest)))
    }

    pub fn copy(&self, alloc: Global) -> Result<Self, NoMemory>
        ensures { IfOk result (λ s. s ≡ self.now) }
    {
        Ok(Homes {
            truth: self.truth,
            row: Vec::from_slice(alloc, self.row.as_slice())?,
        })
    }

    /// Whether no value that waits is this local's.
    pub fn is_free(&self, i: u8) -> bool
        ensures { result ≡ is_free i (reverse self.now.homes) }
    {
        is_free(self.row.as_slice(), i)
    }

    /// Whether the values below the newest tests have the same homes.
    pub fn same_homes(&self, other: &Self) -> bool
        ensures { result ≡ same_homes (reverse self.now.homes) (reverse other.now.homes) }
    {
        same_homes(self.row.as_slice(), other.row.as_slice())
    }

    /// Whether nothing waits.
    pub fn is_empty(&self) -> bool
        ensures { result ≡ is_empty self.now }
    {
        self.truth.is_none() && self.row.len() == 0
    }
}

/// Whether two homes are the same.
pub fn same_operand(a: Operand, b: Operand) -> bool
    ensures { result ≡ same_operand a b }
{
    match (a, b) {
        (Operand::Local(i), Operand::Local(j)) => i == j,
        (Operand::Known(v), Operand::Known(w)) => v == w,
        _ => false,
    }
}

fn is_free(homes: &[Operand], i: u8) -> bool
    ensures { result ≡ is_free i homes.now }
{
    match homes {
        [] => true,
        [home, rest @ ..] => !same_operand(Operand::Local(i), *home) && is_free(rest, i),
    }
}

fn same_homes(first: &[Operand], second: &[Operand]) -> bool
    ensures { result ≡ same_homes first.now second.now }
{
    match first {
        [] => second.is_empty(),
        [a, more @ ..] => match second {
            [] => false,
            [b, others @ ..] => same_operand(*a, *b) && same_homes(more, others),
        },
    }
}
