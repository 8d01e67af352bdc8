// The bytes that a text has named so far, by address.
ghost use Rattle.std.specs.Prelude.{◌≡◌, ◌<◌, ◌≤◌, ◌+◌, ◌^◌, ℕ, List, [], ◌∷◌, ◌++◌, length, take, Option, None, Some, IfOk, OnOk};
ghost use Rattle.vg_base.specs.Limits.{flash_bytes};
ghost use Rattle.vg_hex.specs.HexImage.{data_address, bytes_named};
ghost use Rattle.vg_hex.specs.Walk.{byte_in, bytes_in, fault_at, fault_behind, is_taken, padded, placed, slots_behind};

use crate::fault::{HexFault, HexRefusal};
use crate::hex_record::Base;
use avr_isa::Image;
use std::alloc::Global;
use std::marker::Model;
use vg_base::{FLASH_BYTES, NoMemory};

/// A slot for each address from 0 on, up to the highest that was named: the byte that was named there, or none.
#[derive(Drop)]
pub struct Slots {
    slots: Vec<Option<u8>>,
}

impl Model for Slots {
    ghost use Rattle.std.specs.Prelude.{ℕ, ◌≤◌, List, Option, length};
    ghost use Rattle.vg_base.specs.Limits.{flash_bytes};

    ghost Value = { List (Option ℕ) };

    ghost view = { λ s. s.slots.items };

    ghost invariant = { λ s. length s.slots.items ≤ flash_bytes };
}

impl Slots {
    /// No slots. It takes no memory.
    pub fn new(alloc: Global) -> Self
        ensures { result ≡ [] }
    {
        Slots {
            slots: Vec::new(alloc),
        }
    }

    /// Puts the data bytes of a record of this address behind this base line in their slots.
    ///
    /// The fault is that of the first byte that has no place: `Beyond` the flash, or `Twice` at one address.
    pub fn put_data(&mut self, base: Base, at: u16, bytes: &[u8]) -> Result<(), HexRefusal>
        ensures fine { OnOk result (fault_behind self.old (bytes_named base at 0 bytes.now) ≡ None) }
        ensures slots { OnOk result (self.new ≡ slots_behind self.old (bytes_named base at 0 bytes.now)) }
        ensures fault { (f : HexFault) → result ≡ Err (HexRefusal.Fault f) → fault_behind self.old (bytes_named base at 0 bytes.now) ≡ Some f }
    {
        let mut index = 0usize;
        for b in bytes {
            self.put(data_address(base, at, index), *b)?;
            index += 1;
        }
        Ok(())
    }

    // Puts one byte in its slot.
    fn put(&mut self, address: u64, byte: u8) -> Result<(), HexRefusal>
        requires { address < 2 ^ 32 }
        ensures fine { OnOk result (fault_at self.old address ≡ None) }
        ensures slots { OnOk result (self.new ≡ placed self.old address byte) }
        ensures below { OnOk result (address < flash_bytes) }
        ensures fault { (f : HexFault) → result ≡ Err (HexRefusal.Fault f) → fault_at self.old address ≡ Some f }
    {
        if address >= FLASH_BYTES as u64 {
            return Err(HexRefusal::Fault(HexFault::Beyond(address as u32)));
        }
        let at = address as usize;
        if self.is_taken(at) {
            return Err(HexRefusal::Fault(HexFault::Twice(address as u32)));
        }
        self.pad(at)?;
        self.slots[at] = Some(byte);
        Ok(())
    }

    // Whether a byte with this address was named.
    fn is_taken(&self, at: usize) -> bool
        ensures { result ≡ is_taken at self.now }
    {
        at < self.slots.len() && self.slots[at].is_some()
    }

    // Makes slots up to this address.
    fn pad(&mut self, at: usize) -> Result<(), NoMemory>
        requires { at < flash_bytes }
        ensures { OnOk result (self.new ≡ padded self.old (at + 1)) }
    {
        while self.slots.len() <= at {
            self.slots.push(None)?;
        }
        Ok(())
    }

    /// The image: each byte that was named, and 0xFF where none was.
    pub fn image(&self, alloc: Global) -> Result<Image, NoMemory>
        ensures { IfOk result (λ image. image ≡ bytes_in self.now) }
    {
        let mut bytes = Vec::new(alloc);
        for slot in &self.slots {
            bytes.push(byte_in(*slot))?;
        }
        Ok(Image::from_vec(bytes))
    }
}

// A slot's byte, and 0xFF where it is empty.
fn byte_in(slot: Option<u8>) -> u8
    ensures { result ≡ byte_in slot }
{
    match slot {
        None => 0xFF,
        Some(byte) => byte,
    }
}

// The address of the data byte of this index, in a record of this address behind this base line.
fn data_address(base: Base, at: u16, index: usize) -> u64
    requires { index < 2 ^ 63 }
    ensures { result ≡ data_address base at index }
{
    let place = at as u64 + index as u64;
    match base {
        Base::Unset => place,
        Base::Segment(value) => value as u64 * 16 + place % 65_536,
        Base::Linear(value) => value as u64 * 65_536 + place,
    }
}
