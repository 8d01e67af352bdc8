// The numbers of the names of methods.
ghost use Rattle.std.specs.Prelude.{◌≡◌, Some, None, length, IfOk, OnOk};
ghost use Rattle.vg_types_views.specs.ByText.{found};
ghost use Rattle.vg_types_members.specs.Selectors.{IsNumbering, Stay};

use std::alloc::Global;
use vg_base::NoMemory;
use vg_types_views::ByText;

/// The names of methods, each with its number.
#[derive(Drop)]
pub struct Selectors {
    pub numbers: ByText<u16>,
    pub count: u16,
}

impl Selectors {
    /// Of no name.
    pub fn new(alloc: Global) -> Self
        ensures { IsNumbering result }
    {
        Selectors {
            numbers: ByText::new(alloc),
            count: 0,
        }
    }

    /// The number of a name, which gets one where it has none.
    pub fn number(&mut self, text: &str) -> Result<u16, NoMemory>
        requires { IsNumbering self.old }
        ensures number { IfOk result (λ s. found text.now self.new.numbers ≡ Some s) }
        ensures stay { Stay self.old.numbers self.new.numbers }
        ensures sound { IsNumbering self.new }
    {
        match self.numbers.get(text).copied() {
            Some(number) => Ok(number),
            None => self.add(text),
        }
    }

    // The next number, for a name that has none.
    fn add(&mut self, text: &str) -> Result<u16, NoMemory>
        requires sound { IsNumbering self.old }
        requires new { found text.now self.old.numbers ≡ None }
        ensures number { IfOk result (λ s. found text.now self.new.numbers ≡ Some s) }
        ensures stay { Stay self.old.numbers self.new.numbers }
        ensures sound { IsNumbering self.new }
    {
        let number = self.count;
        match number.checked_add(1) {
            Some(count) => {
                self.numbers.add(text, number)?;
                self.count = count;
                Ok(number)
            }
            // Cannot come: there are no more names than methods, and those were counted.
            None => Err(NoMemory),
        }
    }
}
