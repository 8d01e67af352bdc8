// Whether the code of a guess asks for no more than flattened code does.
ghost use Rattle.std.specs.Prelude.{IsTrue};
ghost use Rattle.vg_meaning.specs.Device.{IsDeviceAddress};
ghost use Rattle.vg_apt.specs.Apt.{AreApt, IsApt, IsPlainApt, Splits};

use vg_lin::{Call, Instr, Plain, Registers};

/// Whether code reads and writes device registers alone, has no steps of a division, and each of its calls pushes nothing or has more than four arguments.
pub fn is_apt_code(code: &[Instr]) -> bool
    ensures { IsTrue result → AreApt code.now }
{
    for instr in code {
        if !is_apt(*instr) {
            return false;
        }
    }
    true
}

fn is_apt(instr: Instr) -> bool
    ensures { IsTrue result → IsApt instr }
{
    match instr {
        Instr::Plain(plain) => is_plain_apt(plain),
        Instr::Call(call) => splits(call),
        _ => true,
    }
}

fn is_plain_apt(plain: Plain) -> bool
    ensures { IsTrue result → IsPlainApt plain }
{
    match plain {
        Plain::DivideSteps(_, _, _) => false,
        Plain::ReadDevice(_, address) => is_device_address(address),
        Plain::WriteDevice(address, _) => is_device_address(address),
        _ => true,
    }
}

// The address of a device register: one of the I/O addresses, but for those of RAMPZ, of SP and of SREG.
fn is_device_address(address: u8) -> bool
    ensures { IsTrue result → IsDeviceAddress address }
{
    address >= 0x20 && address != 0x5B && address != 0x5D && address != 0x5E && address != 0x5F
}

fn splits(call: Call) -> bool
    ensures { IsTrue result → Splits call }
{
    let count = match call.registers {
        Registers::Empty => 0,
        Registers::One(_) => 1,
        Registers::Two(_, _) => 2,
        Registers::Three(_, _, _) => 3,
        Registers::Four(_, _, _, _) => 4,
    };
    call.pushed == 0 || 4 < u32::from(call.pushed) + count
}
