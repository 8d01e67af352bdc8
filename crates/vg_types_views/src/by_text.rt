// Maps from texts.
ghost use Rattle.std.specs.Prelude.{◌≡◌, not, ℕ, List, [], map, is_some, string_bytes, IfOk, OnOk, OnErr};
ghost use Rattle.std.specs.Option.{option_copied};
ghost use Rattle.vg_types_views.specs.ByText.{found, added};

use indexmap::IndexMap;
use std::alloc::Global;
use std::marker::Model;
use vg_base::NoMemory;

/// A map from texts, in the order in which they came. Contracts see the list of its texts with what they are mapped to.
#[derive(Drop)]
pub struct ByText<V: Copy> {
    alloc: Global,
    entries: IndexMap<String, V>,
}

impl<V: Copy> Model for ByText<V> {
    ghost Value = { List (List ℕ × V) };

    ghost view = { λ m. map (λ e. (string_bytes e.0, e.1)) m.entries.entries };
}

impl<V: Copy> ByText<V> {
    /// The map of no text. It takes no memory.
    pub fn new(alloc: Global) -> Self
        ensures { result ≡ [] }
    {
        ByText {
            alloc,
            entries: IndexMap::new(alloc),
        }
    }

    /// What a text is mapped to, found in about constant time.
    pub fn get(&self, text: &str) -> Option<&V>
        ensures { option_copied result ≡ found text.now self.now }
    {
        self.entries.get(text)
    }

    /// Maps a text that is not mapped yet, and says whether it was not.
    pub fn add(&mut self, text: &str, value: V) -> Result<bool, NoMemory>
        ensures new { IfOk result (λ new. new ≡ not (is_some (found text.now self.old))) }
        ensures added { OnOk result (self.new ≡ added text.now value self.old) }
        ensures unchanged { OnErr result (self.new ≡ self.old) }
    {
        match self.entries.get(text) {
            Some(_) => Ok(false),
            None => {
                self.entries
                    .insert(String::from_str(self.alloc, text)?, value)?;
                Ok(true)
            }
        }
    }
}
