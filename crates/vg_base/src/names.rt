// Names and their texts.
ghost use Rattle.std.specs.Prelude.{◌≡◌, ◌<◌, ◌-◌, ◌^◌, ℕ, List, [], length, map, slice_get, string_bytes, IfOk, OnOk, OnErr};
ghost use Rattle.std.specs.Option.{option_map};
ghost use Rattle.vg_base.specs.Names.{number_of, with_text};

use crate::memory::NoMemory;
use indexmap::IndexSet;
use std::alloc::Global;
use std::marker::Model;

/// A name: the number of its text among those that one `Names` holds. Contracts see the number.
#[derive(Clone, Copy, Debug, PartialEq, Eq)]
pub struct Name(u32);

impl Model for Name {
    ghost Value = { ℕ };

    ghost view = { λ name. name.0 };

    ghost inverse = { λ number. record { 0 = number } };
}

/// The texts that have a name, in the order in which they got it. Contracts see the list of their bytes.
#[derive(Drop)]
pub struct Names {
    alloc: Global,
    texts: IndexSet<String>,
}

impl Model for Names {
    ghost Value = { List (List ℕ) };

    ghost view = { λ names. map string_bytes names.texts.keys };
}

impl Names {
    /// Names that hold no text. It takes no memory.
    pub fn new(alloc: Global) -> Self
        ensures { result ≡ [] }
    {
        Names {
            alloc,
            texts: IndexSet::new(alloc),
        }
    }

    /// The name of a text, which gets one where it has none. Equal texts have one name, and the earlier names stay.
    pub fn intern(&mut self, text: &str) -> Result<Name, NoMemory>
        requires { length self.old < 2 ^ 32 - 1 }
        ensures name { IfOk result (λ name. name ≡ number_of text.now self.old) }
        ensures held { OnOk result (self.new ≡ with_text text.now self.old) }
        ensures unchanged { OnErr result (self.new ≡ self.old) }
    {
        match self.texts.get_index_of(text) {
            Some(index) => Ok(Name(index as u32)),
            None => {
                let (index, _) = self.texts.insert_full(String::from_str(self.alloc, text)?)?;
                Ok(Name(index as u32))
            }
        }
    }

    /// The text of a name, found in constant time. None exactly where the name was not handed out here.
    pub fn text(&self, name: Name) -> Option<&str>
        ensures { option_map (λ text. text.now) result ≡ slice_get self.now name }
    {
        match self.texts.get_index(name.0 as usize) {
            Some(text) => Some(text.as_str()),
            None => None,
        }
    }
}
