// A list of things.
ghost use Rattle.std.specs.Prelude.{◌≡◌, ◌↔◌, ◌≤◌, ℕ, List, [], ◌∷◌, ◌++◌, insert, length, option_to_list, IfOk, IsTrue, OnOk, OnErr};

use crate::memory::NoMemory;
use std::alloc::Global;
use std::marker::Model;

/// A list of things in order, which contracts see as that list, also inside other types.
#[derive(Drop)]
pub struct Row<T: Drop> {
    things: Vec<T>,
}

impl<T: Drop> Model for Row<T> {
    ghost Value = { List T };

    ghost view = { λ row. row.things.items };
}

impl<T: Drop> Row<T> {
    /// The empty row. It takes no memory.
    pub fn new(alloc: Global) -> Self
        ensures { result ≡ [] }
    {
        Row {
            things: Vec::new(alloc),
        }
    }

    /// The row of these things. It takes no memory.
    pub fn from_vec(things: Vec<T>) -> Self
        ensures { result ≡ things.items }
    {
        Row { things }
    }

    /// The things of the row. It takes no memory.
    pub fn into_vec(self) -> Vec<T>
        ensures { result.items ≡ self }
    {
        self.things
    }

    /// How many things the row has.
    pub fn len(&self) -> usize
        ensures { result ≡ length self.now }
    {
        self.things.len()
    }

    /// Whether the row has no thing.
    pub fn is_empty(&self) -> bool
        ensures { IsTrue result ↔ (self.now ≡ []) }
    {
        self.things.is_empty()
    }

    /// The things of the row, in order.
    pub fn as_slice(&self) -> &[T]
        ensures { result.now ≡ self.now }
    {
        self.things.as_slice()
    }

    /// Puts one thing behind the row.
    pub fn push(&mut self, thing: T) -> Result<(), NoMemory>
        ensures ok { OnOk result (self.new ≡ self.old ++ thing ∷ []) }
        ensures err { OnErr result (self.new ≡ self.old) }
    {
        self.things.push(thing)?;
        Ok(())
    }

    /// Puts one thing before the one with this index, counted from 0, or behind all.
    pub fn insert(&mut self, index: usize, thing: T) -> Result<(), NoMemory>
        requires { index ≤ length self.old }
        ensures ok { OnOk result (self.new ≡ insert self.old index thing) }
        ensures err { OnErr result (self.new ≡ self.old) }
    {
        self.things.insert(index, thing)?;
        Ok(())
    }

    /// Takes the last thing from the row, where it has one. It takes no memory.
    pub fn pop(&mut self) -> Option<T>
        ensures { self.old ≡ self.new ++ option_to_list result }
    {
        self.things.pop()
    }
}

impl Row<u8> {
    /// A copy of these bytes.
    pub fn from_slice(alloc: Global, bytes: &[u8]) -> Result<Self, NoMemory>
        ensures { IfOk result (λ row. row ≡ bytes.now) }
    {
        Ok(Row {
            things: Vec::from_slice(alloc, bytes)?,
        })
    }

    /// Puts bytes behind the row.
    pub fn append(&mut self, piece: &[u8]) -> Result<(), NoMemory>
        ensures ok { OnOk result (self.new ≡ self.old ++ piece.now) }
        ensures err { OnErr result (self.new ≡ self.old) }
    {
        self.things.extend_from_slice(piece)?;
        Ok(())
    }
}
