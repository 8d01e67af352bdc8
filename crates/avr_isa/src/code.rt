// Code that stands in the flash.
ghost use Rattle.std.specs.Prelude.{◌<◌, List};
ghost use Rattle.std.specs.List.{flat_map, AllByRecursion};
ghost use Rattle.avr_instr.specs.Spelled.{InRange};
ghost use Rattle.avr_isa.specs.Standing.{instr_bytes, widths, AllStandAt};

/// A law: the bytes of instructions, put one behind another from byte address 0 on, spell these instructions in this order.
///
/// It holds below the last word of the flash, word address 65,535.
pub fn code_stands()
    ensures { (code : List _) → AllByRecursion InRange code → widths code < 65536 → AllStandAt (flat_map instr_bytes code) 0 code }
{}
