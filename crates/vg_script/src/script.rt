// A script.
ghost use Rattle.std.specs.Prelude.{◌≡◌, ℕ, List};
ghost use Rattle.vg_meaning.specs.Outside.{AreReads, AreVectors};

use std::marker::Model;
use vg_base::NoMemory;

/// The values that device reads will give, in order, and the vectors of the interrupts that will come, in order.
///
/// Each interrupt is from 1 to 34, the vectors of the ATmega128 behind its reset (ATmega128 datasheet, "Interrupts").
/// Contracts see the two lists.
#[derive(Drop)]
pub struct Script {
    reads: Vec<u8>,
    interrupts: Vec<u8>,
}

impl Model for Script {
    ghost use Rattle.vg_meaning.specs.Outside.{AreReads, AreVectors};
    ghost use Rattle.vg_script.specs.Script.{Lists};

    ghost Value = { Lists };

    ghost view = { λ s. record { reads = s.reads.items; interrupts = s.interrupts.items } };

    ghost invariant = { λ s. AreReads s.reads.items × AreVectors s.interrupts.items };
}

impl Script {
    /// The script of these lists. It takes no memory.
    pub fn from_lists(reads: Vec<u8>, interrupts: Vec<u8>) -> Self
        requires { AreVectors interrupts.items }
        ensures reads { result.reads ≡ reads.items }
        ensures interrupts { result.interrupts ≡ interrupts.items }
        ensures bytes { AreReads result.reads }
    {
        Script { reads, interrupts }
    }

    /// The values that device reads will give.
    pub fn reads(&self) -> &[u8]
        ensures value { result.now ≡ self.now.reads }
        ensures bytes { AreReads self.now.reads }
    {
        self.reads.as_slice()
    }

    /// The vectors of the interrupts that will come, each from 1 to 34.
    pub fn interrupts(&self) -> &[u8]
        ensures value { result.now ≡ self.now.interrupts }
        ensures vectors { AreVectors self.now.interrupts }
    {
        self.interrupts.as_slice()
    }
}

/// Why a text is no script.
#[derive(Clone, Copy, Debug, PartialEq, Eq)]
pub enum ScriptFault {
    /// The line of this number, from 1 on, is the first that is none of a script.
    Form(u32),
    /// Want of memory.
    NoMemory,
}

impl From<NoMemory> for ScriptFault {
    ghost use Rattle.std.specs.Prelude.{◌≡◌};
    ghost use Rattle.vg_script.specs.declared.script.ScriptFault.TheVariants.{NoMemory as Memory};

    ghost from_gives = { λ _ e. e ≡ Memory };

    fn from(_: NoMemory) -> Self {
        ScriptFault::NoMemory
    }
}
