// What is to come while the parse of a text is made.
ghost use Rattle.std.specs.Prelude.{[], ◌≡◌, ◌∷◌, OnOk};
ghost use Rattle.vg_grammar.specs.Marks.{Pops, sees};

use std::alloc::Global;
use std::marker::Model;
use vg_base::NoMemory;
use vg_syntax::{Part, Symbol};

/// A symbol to come, or a part that is made of so many of the last tokens and parts.
#[derive(Clone, Copy, Debug, PartialEq, Eq)]
pub enum Mark {
    See(Symbol),
    Make(Part, u8),
}

/// What is to come. Contracts see it as a list, the next mark first.
#[derive(Drop)]
pub struct Marks {
    // the next one last
    marks: Vec<Mark>,
}

impl Model for Marks {
    ghost use Rattle.std.specs.Prelude.{List, reverse};
    ghost use Rattle.vg_grammar.specs.declared.marks.Mark.{Mark};

    ghost Value = { List Mark };

    ghost view = { λ s. reverse s.marks.items };
}

impl Marks {
    /// Nothing to come. It takes no memory.
    pub fn new(alloc: Global) -> Self
        ensures { result ≡ [] }
    {
        Marks {
            marks: Vec::new(alloc),
        }
    }

    /// Takes the next mark.
    pub fn pop(&mut self) -> Option<Mark>
        ensures { Pops result self.old self.new }
    {
        self.marks.pop()
    }

    /// Puts a mark before the others.
    pub fn push(&mut self, mark: Mark) -> Result<(), NoMemory>
        ensures { OnOk result (self.new ≡ mark ∷ self.old) }
    {
        self.marks.push(mark)?;
        Ok(())
    }

    /// Puts symbols before the others, the first one foremost.
    pub fn push_all(&mut self, symbols: &[Symbol]) -> Result<(), NoMemory>
        ensures { OnOk result (self.new ≡ sees symbols.now self.old) }
    {
        let mut left = symbols;
        while let Some((last, before)) = left.split_last() {
            self.marks.push(Mark::See(*last))?;
            left = before;
        }
        Ok(())
    }
}
