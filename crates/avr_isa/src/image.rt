// What stands in the flash.
ghost use Rattle.std.specs.Prelude.{◌≡◌, ◌≤◌, ℕ, List, length};
ghost use Rattle.vg_base.specs.Limits.{flash_bytes};
ghost use Rattle.avr_isa.specs.Cpu.{flash_byte, flash_word};

use std::marker::Model;
use vg_base::FLASH_BYTES;

/// The bytes of the flash from byte address 0 on, at most 131,072. The flash behind them reads as 0xFF.
///
/// Contracts see the list of the bytes.
#[derive(Drop)]
pub struct Image {
    bytes: Vec<u8>,
}

impl Model for Image {
    ghost Value = { List ℕ };

    ghost view = { λ image. image.bytes.items };

    ghost invariant = { λ image. length image.bytes.items ≤ flash_bytes };
}

impl Image {
    /// The image of these bytes. It takes no memory.
    pub fn from_vec(bytes: Vec<u8>) -> Self
        requires { length bytes.items ≤ FLASH_BYTES }
        ensures { result ≡ bytes.items }
    {
        Image { bytes }
    }

    /// The bytes of the image. It takes no memory.
    pub fn into_vec(self) -> Vec<u8>
        ensures { result.items ≡ self }
    {
        self.bytes
    }

    /// The bytes of the image.
    pub fn as_slice(&self) -> &[u8]
        ensures bytes { result.now ≡ self.now }
        ensures within { length self.now ≤ FLASH_BYTES }
    {
        self.bytes.as_slice()
    }

    /// The byte of the flash at this byte address; 0xFF behind the image.
    pub fn byte(&self, address: usize) -> u8
        ensures { result ≡ flash_byte self.now address }
    {
        match self.bytes.get(address) {
            Some(byte) => *byte,
            None => 0xFF,
        }
    }

    /// The word of the flash at this word address, its low byte first.
    pub fn word(&self, address: u16) -> u16
        ensures { result ≡ flash_word self.now address }
    {
        let at = address as usize * 2;
        u16::from(self.byte(at)) + 256 * u16::from(self.byte(at + 1))
    }
}
