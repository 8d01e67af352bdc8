// Which names and numbers make a program of constants, and its writes.
ghost use Rattle.std.specs.Prelude.{◌≡◌, ◌↔◌, ◌≤◌, IsTrue, IfSome, IfNone, IfOk, OnOk, Err, map};
ghost use Rattle.indexmap.specs.IndexMap.{get};
ghost use Rattle.vg_meaning.specs.Device.{IsDeviceAddress};
ghost use Rattle.vg_first_text.specs.FirstText.{IsRegisterNumber, IsByteNumber, AreRegisters, AreFirstNames, FirstFits, IsAssignment, write_of, writes_of};
ghost use Rattle.vg_first_text.specs.FirstViews.{assignment_view, register_view, program_view, same_name, TellsAddresses, AreAssignments};
ghost use Rattle.vg_syntax.specs.Hexadecimal.{digit_value, more_digits, hex_value};
ghost use Rattle.vg_syntax.specs.Lexemes.{is_hexadecimal};

use crate::device_write::DeviceWrite;
use crate::first_text::NotFirst;
use crate::first_text::parts::{Assignment, Program, Register};
use indexmap::IndexMap;
use std::alloc::Global;
use vg_base::Refusal;
use vg_scan::is_hexadecimal;

/// The writes of a program of constants.
pub(crate) fn program_writes(
    alloc: Global,
    program: &Program<'_>,
) -> Result<Vec<DeviceWrite>, Refusal<NotFirst>>
    ensures fits { OnOk result (FirstFits (program_view program.now)) }
    ensures writes { IfOk result (λ w. w.items ≡ writes_of (program_view program.now)) }
    ensures not { (why : NotFirst) → result ≡ Err (Refusal.Fault why) → FirstFits (program_view program.now) → ⊥ }
{
    if !names_fit(program) || program.assignments.len() > 100 {
        return Err(Refusal::Fault(NotFirst));
    }
    let addresses = register_addresses(alloc, program.registers.as_slice())?;
    assignment_writes(alloc, program, &addresses)
}

// Whether the names are equal and differ as they must.
fn names_fit(program: &Program<'_>) -> bool
    ensures { IsTrue result ↔ AreFirstNames (program_view program.now) }
{
    let head = program.head;
    let tail = program.tail;
    tail.key == b"main".as_slice()
        && tail.component == head.component
        && tail.method == head.method
        && program.device != head.component
        && tail.program != head.component
        && tail.program != program.device
        && program.device != head.method
}

// The address of each register by its name. Each register is looked at once.
fn register_addresses<'a>(
    alloc: Global,
    registers: &[Register<'a>],
) -> Result<IndexMap<&'a [u8], u8>, Refusal<NotFirst>>
    ensures fit { OnOk result (AreRegisters (map register_view registers.now)) }
    ensures told { IfOk result (λ m. TellsAddresses (get same_name m) (map register_view registers.now)) }
    ensures not { (why : NotFirst) → result ≡ Err (Refusal.Fault why) → AreRegisters (map register_view registers.now) → ⊥ }
{
    let mut addresses = IndexMap::new(alloc);
    for register in registers {
        let Some(address) = register_address(register.digits) else {
            return Err(Refusal::Fault(NotFirst));
        };
        if addresses.insert(register.name, address)?.is_some() {
            return Err(Refusal::Fault(NotFirst));
        }
    }
    Ok(addresses)
}

// The writes of the assignments, in order.
fn assignment_writes<'a>(
    alloc: Global,
    program: &Program<'a>,
    addresses: &IndexMap<&'a [u8], u8>,
) -> Result<Vec<DeviceWrite>, Refusal<NotFirst>>
    requires { TellsAddresses (get same_name addresses.now) (map register_view program.now.registers.items) }
    ensures fit { OnOk result (AreAssignments (program_view program.now)) }
    ensures writes { IfOk result (λ w. w.items ≡ writes_of (program_view program.now)) }
    ensures not { (why : NotFirst) → result ≡ Err (Refusal.Fault why) → AreAssignments (program_view program.now) → ⊥ }
{
    let mut writes = Vec::new(alloc);
    for assignment in program.assignments.as_slice() {
        let Some(write) = assignment_write(program, assignment, addresses) else {
            return Err(Refusal::Fault(NotFirst));
        };
        writes.push(write)?;
    }
    Ok(writes)
}

// The write of an assignment: None exactly where it writes no byte to a register of the device.
fn assignment_write<'a>(
    program: &Program<'a>,
    assignment: &Assignment<'a>,
    addresses: &IndexMap<&'a [u8], u8>,
) -> Option<DeviceWrite>
    requires { TellsAddresses (get same_name addresses.now) (map register_view program.now.registers.items) }
    ensures some { IfSome result (λ w. IsAssignment program.now.device.now (map register_view program.now.registers.items) (assignment_view assignment.now)
        × (w ≡ write_of (map register_view program.now.registers.items) (assignment_view assignment.now))) }
    ensures none { IfNone result (IsAssignment program.now.device.now (map register_view program.now.registers.items) (assignment_view assignment.now) → ⊥) }
{
    if assignment.device != program.device {
        return None;
    }
    let Some(address) = addresses.get(&assignment.register) else {
        return None;
    };
    let Some(value) = byte_value(assignment.digits) else {
        return None;
    };
    Some(DeviceWrite {
        address: *address,
        value,
    })
}

// The address that the number of a register names: None exactly where the number is none of a device register.
fn register_address(number: &[u8]) -> Option<u8>
    ensures some { IfSome result (λ a. (a ≡ hex_value number.now) × IsRegisterNumber number.now) }
    ensures none { IfNone result (IsRegisterNumber number.now → ⊥) }
{
    if !is_hexadecimal(number) {
        return None;
    }
    let (_, digits) = number.split_at(2);
    match byte_of(digits) {
        Some(address) if is_device_address(address) => Some(address),
        _ => None,
    }
}

// The byte that 0x and two hexadecimal digits are: None exactly where the number is written otherwise.
fn byte_value(number: &[u8]) -> Option<u8>
    ensures some { IfSome result (λ v. (v ≡ hex_value number.now) × IsByteNumber number.now) }
    ensures none { IfNone result (IsByteNumber number.now → ⊥) }
{
    if number.len() != 4 || !is_hexadecimal(number) {
        return None;
    }
    let (_, digits) = number.split_at(2);
    byte_of(digits)
}

fn is_device_address(address: u8) -> bool
    ensures { IsTrue result ↔ IsDeviceAddress address }
{
    address >= 0x20 && !matches!(address, 0x5B | 0x5D | 0x5E | 0x5F)
}

// The value of hexadecimal digits, where it is a byte.
fn byte_of(digits: &[u8]) -> Option<u8>
    ensures some { IfSome result (λ v. v ≡ more_digits 0 digits.now) }
    ensures none { IfNone result (256 ≤ more_digits 0 digits.now) }
{
    let mut value: u8 = 0;
    for digit in digits {
        let longer = value as u16 * 16 + digit_value(*digit) as u16;
        if longer > 255 {
            return None;
        }
        value = longer as u8;
    }
    Some(value)
}

// The value of a hexadecimal digit.
fn digit_value(digit: u8) -> u8
    ensures { result ≡ digit_value digit }
{
    if digit.is_ascii_digit() {
        digit - b'0'
    } else if digit <= b'F' {
        digit.saturating_sub(b'A' - 10)
    } else {
        digit.saturating_sub(b'a' - 10)
    }
}
