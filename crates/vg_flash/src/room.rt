// The room for the stack of an image.
ghost use Rattle.std.specs.Prelude.{◌≤◌};
ghost use Rattle.vg_flash.specs.Flashes.{Lays};

/// How an image uses SRAM: the bytes of its static area, the data address that its stack reaches at its lowest, and the bytes of the stack.
#[derive(Clone, Copy, Debug, PartialEq, Eq)]
pub struct Room {
    pub static_bytes: u16,
    pub floor: u16,
    pub stack: u16,
}

/// The bytes that a stack needs, and how many are left for it.
#[derive(Clone, Copy, Debug, PartialEq, Eq)]
pub struct NoRoom {
    pub need: u32,
    pub left: u32,
}

/// The room above so many static bytes. A stack that is not asked for needs 64 bytes, and has all that are left.
pub fn room_above(static_bytes: u16, asked: Option<u16>) -> Result<Room, NoRoom>
    requires { static_bytes ≤ 4096 }
    ensures { Lays static_bytes asked result }
{
    let left = 4096 - static_bytes;
    let need = asked.unwrap_or(64);
    if need > left {
        return Err(NoRoom {
            need: u32::from(need),
            left: u32::from(left),
        });
    }
    let stack = asked.unwrap_or(left);
    Ok(Room {
        static_bytes,
        floor: 0x1100 - stack,
        stack,
    })
}
