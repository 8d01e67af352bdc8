// Locals, and values that wait.
ghost use Rattle.std.specs.Prelude.{◌≡◌, Some, None};
ghost use Rattle.vg_lin.specs.Values.{low};

use crate::memory::low_bytes;
use std::marker::Model;

/// A local of so many bytes. It has no value until it gets one.
#[derive(Clone, Copy)]
pub struct Local {
    width: u8,
    value: Option<u32>,
}

impl Model for Local {
    ghost use Rattle.vg_lin.specs.State.{LocalState};

    ghost Value = { LocalState };

    ghost view = { λ l. record { width = l.width; value = l.value } };

    ghost inverse = { λ l. record { width = l.width; value = l.value } };
}

impl Local {
    /// A local that has no value yet.
    pub fn new(width: u8) -> Self
        ensures { result ≡ record { width = width; value = None } }
    {
        Local { width, value: None }
    }

    /// The value that it has.
    pub fn value(&self) -> Option<u32>
        ensures { result ≡ self.now.value }
    {
        self.value
    }

    /// It with the low bytes of a value, as many as it has.
    pub fn with(&self, x: u32) -> Self
        ensures { result ≡ record { width = self.now.width; value = Some (low self.now.width x) } }
    {
        Local {
            width: self.width,
            value: Some(low_bytes(self.width, x)),
        }
    }
}

/// A value of so many bytes that waits for a call.
#[derive(Clone, Copy)]
pub struct Held {
    width: u8,
    value: u32,
}

impl Model for Held {
    ghost use Rattle.vg_lin.specs.State.{Waiting};

    ghost Value = { Waiting };

    ghost view = { λ h. record { width = h.width; value = h.value } };

    ghost inverse = { λ h. record { width = h.width; value = h.value } };
}

impl Held {
    /// So many low bytes of a value.
    pub fn new(width: u8, x: u32) -> Self
        ensures { result ≡ record { width = width; value = low width x } }
    {
        Held {
            width,
            value: low_bytes(width, x),
        }
    }

    /// How many bytes it has.
    pub fn width(&self) -> u8
        ensures { result ≡ self.now.width }
    {
        self.width
    }

    /// The value.
    pub fn value(&self) -> u32
        ensures { result ≡ self.now.value }
    {
        self.value
    }
}
