// How a search goes on.
ghost use Rattle.std.specs.Prelude.{◌≡◌, ◌<◌, ◌+◌, ◌^◌, OnOk};
ghost use Rattle.vg_types_literals.specs.Found.{seen, first_seen, passed, with_literal};

use crate::search::Search;
use indexmap::IndexSet;
use std::alloc::Global;
use vg_base::{NoMemory, Row};

/// Before the first declaration.
pub(crate) fn first_search(alloc: Global) -> Search
    ensures { seen result ≡ first_seen }
{
    Search {
        next: 1,
        nodes: IndexSet::new(alloc),
        texts: Row::new(alloc),
    }
}

impl Search {
    /// Past a node that is no literal.
    pub(crate) fn pass(&mut self)
        requires { self.old.next + 1 < 2 ^ 32 }
        ensures { seen self.new ≡ passed (seen self.old) }
    {
        self.next = self.next + 1;
    }

    /// Behind a literal of these bytes.
    pub(crate) fn add(&mut self, bytes: Row<u8>) -> Result<(), NoMemory>
        requires { self.old.next + 1 < 2 ^ 32 }
        ensures { OnOk result (seen self.new ≡ with_literal bytes (seen self.old)) }
    {
        let node = self.next;
        self.next = node + 1;
        self.nodes.insert_full(node)?;
        self.texts.push(bytes)
    }
}
