ghost use Rattle.std.specs.Prelude.{◌≡◌, ◌<◌, ◌≤◌, length};

use crate::sample::{
    lasting_locations, pushing_locations, sample_locations, taking_locations, wide_locations,
};
use avr_instr::{FlagBit, Instr, NearOffset, encode};
use std::alloc::Global;
use vg_alloc::Locations;
use vg_base::{NoMemory, Row};
use vg_codes::Case;
use vg_lin::{Address, Comparison, Computation, Operand, Operator, Test};
use vg_put_flow::{Hop, Turn, put_branch, put_prologue, put_returns_value, put_tests};
use vg_put_operations::{
    put_divides_steps, put_finds_procedure, put_loads_table, put_multiplies, put_shifts_left,
    put_shifts_right,
};
use vg_put_plain::{
    put_computes, put_copies, put_copies_whole, put_loads_column, put_pushes_value,
    put_reads_device, put_stops, put_stores_column, put_writes_device,
};

// The words that spell instructions, one behind the other.
fn words(alloc: Global, code: &[Instr]) -> Result<Row<u16>, NoMemory> {
    let mut words = Row::new(alloc);
    for instr in code {
        let (first, second) = encode(*instr);
        words.push(first)?;
        match second {
            Some(word) => words.push(word)?,
            None => {}
        }
    }
    Ok(words)
}

// Whether code is spelled by these words.
fn is_spelled(alloc: Global, code: &Result<Row<Instr>, NoMemory>, expected: &[u16]) -> bool {
    match code {
        Ok(code) => match words(alloc, code.as_slice()) {
            Ok(words) => words.as_slice() == expected,
            Err(_) => false,
        },
        Err(_) => false,
    }
}

fn entered(alloc: Global) -> Result<Row<Instr>, NoMemory> {
    let locations = pushing_locations(alloc, 3)?;
    let mut code = Row::new(alloc);
    put_prologue(&mut code, &locations)?;
    put_copies(&mut code, &locations, 3, Operand::Local(2))?;
    put_returns_value(&mut code, &locations, Operand::Local(3), 1)?;
    Ok(code)
}

// Y is saved, and becomes the frame pointer; the low byte of the parameter goes to the local, which is returned.
#[test]
fn a_procedure_enters_and_returns(rt: HostRuntime) {
    let alloc = rt.alloc();
    let code = entered(alloc);
    let expected = [
        0x93DF, 0x93CF, 0xB7CD, 0xB7DE, // PUSH r29; PUSH r28; IN r28, SPL; IN r29, SPH
        0x808D, // LDD r8, Y+5
        0x2D68, 0x91CF, 0x91DF, 0x9508, // MOV r22, r8; POP r28; POP r29; RET
    ];
    let holds = is_spelled(alloc, &code, &expected);
    assert!(rt; holds);
}

fn returned(alloc: Global) -> Result<Row<Instr>, NoMemory> {
    let locations = pushing_locations(alloc, 3)?;
    let mut code = Row::new(alloc);
    put_returns_value(&mut code, &locations, Operand::Known(0), 4)?;
    put_returns_value(&mut code, &locations, Operand::Known(0x0001_0000), 4)?;
    Ok(code)
}

// The four bytes of zero are two bytes twice, and those of another number are not.
#[test]
fn numbers_are_returned(rt: HostRuntime) {
    let alloc = rt.alloc();
    let code = returned(alloc);
    let expected = [
        0xE060, 0xE070, 0x01CB, // LDI r22, 0; LDI r23, 0; MOVW r24, r22
        0x91CF, 0x91DF, 0x9508, // POP r28; POP r29; RET
        0xE060, 0xE070, 0xE081, 0xE090, // LDI r22, 0; LDI r23, 0; LDI r24, 1; LDI r25, 0
        0x91CF, 0x91DF, 0x9508, // POP r28; POP r29; RET
    ];
    let holds = is_spelled(alloc, &code, &expected);
    assert!(rt; holds);
}

fn computed(alloc: Global) -> Result<Row<Instr>, NoMemory> {
    let locations = pushing_locations(alloc, 4)?;
    let mut code = Row::new(alloc);
    let sum = Computation {
        operator: Operator::Plus,
        width: 1,
        to: 3,
        left: Operand::Local(3),
        right: Operand::Known(3),
    };
    put_computes(alloc, &mut code, &locations, sum)?;
    put_pushes_value(alloc, &mut code, &locations, 2, Operand::Local(2))?;
    put_writes_device(alloc, &mut code, &locations, 0x38, Operand::Local(3))?;
    put_stops(&mut code, 2)?;
    Ok(code)
}

// A sum with a known number, a value that waits, a write to PORTB, and a stop.
#[test]
fn plain_instructions_are_put(rt: HostRuntime) {
    let alloc = rt.alloc();
    let code = computed(alloc);
    let expected = [
        0x816D, 0x5F6D, 0x836D, // LDD r22, Y+5; SUBI r22, 0xFD; STD Y+5, r22
        0x816E, 0x817F, 0x937F, 0x936F, // LDD r22, Y+6; LDD r23, Y+7; PUSH r23; PUSH r22
        0x816D, 0xBB68, // LDD r22, Y+5; OUT 0x18, r22
        0xE082, 0xCFFF, // LDI r24, 2; RJMP to itself
    ];
    let holds = is_spelled(alloc, &code, &expected);
    assert!(rt; holds);
}

fn reached(alloc: Global) -> Result<Row<Instr>, NoMemory> {
    let locations = pushing_locations(alloc, 4)?;
    let mut code = Row::new(alloc);
    let column = Address {
        base: 0x100,
        index: Operand::Local(2),
    };
    let table = Address {
        base: 0x8C,
        index: Operand::Known(4),
    };
    put_loads_column(&mut code, &locations, 1, 3, column)?;
    put_loads_table(&mut code, &locations, 2, 2, table)?;
    Ok(code)
}

// A load of a column in RAM, at an index that a local has, and one of a table in flash, at a known one.
#[test]
fn columns_and_tables_are_reached(rt: HostRuntime) {
    let alloc = rt.alloc();
    let code = reached(alloc);
    let expected = [
        0x81AE, 0x81BF, 0x50A0, 0x4FBF, // LDD r26, Y+6; LDD r27, Y+7; SUBI r26, 0; SBCI r27, 0xFF
        0x916D, 0x836D, // LD r22, X+; STD Y+5, r22
        0xE9E0, 0xE0F0, 0x9165, 0x9175, // LDI r30, 0x90; LDI r31, 0; LPM r22, Z+; LPM r23, Z+
        0x836E, 0x837F, // STD Y+6, r22; STD Y+7, r23
    ];
    let holds = is_spelled(alloc, &code, &expected);
    assert!(rt; holds);
}

fn at_addresses(alloc: Global) -> Result<Row<Instr>, NoMemory> {
    let locations = pushing_locations(alloc, 4)?;
    let mut code = Row::new(alloc);
    let element = Address {
        base: 0,
        index: Operand::Local(2),
    };
    put_loads_column(&mut code, &locations, 1, 3, element)?;
    put_loads_table(&mut code, &locations, 1, 3, element)?;
    Ok(code)
}

// The same where the address is a local's alone, as that of an element of an array is: nothing is added to it.
#[test]
fn addresses_in_locals_are_reached(rt: HostRuntime) {
    let alloc = rt.alloc();
    let code = at_addresses(alloc);
    let expected = [
        0x81AE, 0x81BF, 0x916D, 0x836D, // LDD r26, Y+6; LDD r27, Y+7; LD r22, X+; STD Y+5, r22
        0x81AE, 0x81BF, 0x01FD, // LDD r26, Y+6; LDD r27, Y+7; MOVW r30, r26
        0x9165, 0x836D, // LPM r22, Z+; STD Y+5, r22
    ];
    let holds = is_spelled(alloc, &code, &expected);
    assert!(rt; holds);
}

fn at_addresses_in_registers(alloc: Global) -> Result<Row<Instr>, NoMemory> {
    let locations = sample_locations(alloc, 0)?;
    let mut code = Row::new(alloc);
    let wide = Address {
        base: 0x8C,
        index: Operand::Local(0),
    };
    let narrow = Address {
        base: 0,
        index: Operand::Local(1),
    };
    put_loads_table(&mut code, &locations, 1, 1, wide)?;
    put_loads_table(&mut code, &locations, 1, 1, narrow)?;
    Ok(code)
}

// Where the index is in registers, it comes from there into Z at once, with a zero behind a single byte.
#[test]
fn addresses_in_registers_are_reached(rt: HostRuntime) {
    let alloc = rt.alloc();
    let code = at_addresses_in_registers(alloc);
    let expected = [
        0x01F4, 0x57E4, 0x4FFF, 0x90A5, // MOVW r30, r8; SUBI r30, 0x74; SBCI r31, 0xFF; LPM r10, Z+
        0x2DEA, 0x2DF1, 0x90A5, // MOV r30, r10; MOV r31, r1; LPM r10, Z+
    ];
    let holds = is_spelled(alloc, &code, &expected);
    assert!(rt; holds);
}

fn branched(alloc: Global) -> Result<Row<Instr>, NoMemory> {
    let locations = pushing_locations(alloc, 3)?;
    let mut code = Row::new(alloc);
    let test = Test {
        comparison: Comparison::Same,
        width: 2,
        left: Operand::Local(2),
        right: Operand::Known(0),
    };
    put_tests(alloc, &mut code, &locations, test)?;
    put_branch(
        &mut code,
        FlagBit::new(1),
        true,
        Turn::Direct(NearOffset::new(5)),
    )?;
    put_branch(
        &mut code,
        FlagBit::new(1),
        true,
        Turn::Past(Hop::Far(0x1234)),
    )?;
    Ok(code)
}

// A comparison with zero, and the branches that are taken where both are the same, near by and to any address.
#[test]
fn branches_are_put(rt: HostRuntime) {
    let alloc = rt.alloc();
    let code = branched(alloc);
    let expected = [
        0x816D, 0x817E, 0x2B67, // LDD r22, Y+5; LDD r23, Y+6; OR r22, r23
        0xF029, // BREQ by 5 words
        0xF411, 0x940C, 0x1234, // BRNE by 2 words; JMP 0x1234
    ];
    let holds = is_spelled(alloc, &code, &expected);
    assert!(rt; holds);
}

fn operated(alloc: Global) -> Result<Row<Instr>, NoMemory> {
    let locations = pushing_locations(alloc, 4)?;
    let mut code = Row::new(alloc);
    put_shifts_left(&mut code, &locations, 1, 3, Operand::Local(3), 3)?;
    put_multiplies(
        alloc,
        &mut code,
        &locations,
        2,
        Operand::Local(3),
        Operand::Known(5),
    )?;
    Ok(code)
}

// A shift by three bits, and a product of two bytes.
#[test]
fn shifts_and_products_are_put(rt: HostRuntime) {
    let alloc = rt.alloc();
    let code = operated(alloc);
    let expected = [
        0x816D, 0x0F66, 0x0F66, 0x0F66, 0x836D, // LDD r22, Y+5; ADD r22, r22, three times; STD Y+5, r22
        0x812D, 0xE065, 0x9F26, 0x01B0, 0x2411, // LDD r18, Y+5; LDI r22, 5; MUL r18, r22; MOVW r22, r0; EOR r1, r1
        0x836E, 0x837F, // STD Y+6, r22; STD Y+7, r23
    ];
    let holds = is_spelled(alloc, &code, &expected);
    assert!(rt; holds);
}

fn shifted_there(alloc: Global) -> Result<Row<Instr>, NoMemory> {
    let locations = wide_locations(alloc)?;
    let mut code = Row::new(alloc);
    put_shifts_left(&mut code, &locations, 2, 5, Operand::Local(5), 1)?;
    put_shifts_right(&mut code, &locations, 2, 5, Operand::Local(5), 1)?;
    Ok(code)
}

// Shifts by one bit, in the registers of the local that has the value and gets it.
#[test]
fn shifts_are_put_in_place(rt: HostRuntime) {
    let alloc = rt.alloc();
    let code = shifted_there(alloc);
    let expected = [
        0x0F00, 0x1F11, // ADD r16, r16; ADC r17, r17
        0x9516, 0x9507, // LSR r17; ROR r16
    ];
    let holds = is_spelled(alloc, &code, &expected);
    assert!(rt; holds);
}

fn shifted_home(alloc: Global) -> Result<Row<Instr>, NoMemory> {
    let locations = wide_locations(alloc)?;
    let mut code = Row::new(alloc);
    put_shifts_left(&mut code, &locations, 2, 7, Operand::Local(5), 1)?;
    put_shifts_left(&mut code, &locations, 4, 4, Operand::Local(3), 16)?;
    Ok(code)
}

// Shifts to the left from the registers of one local to those of another one, by one bit and by two bytes.
#[test]
fn shifts_to_the_left_are_put_home(rt: HostRuntime) {
    let alloc = rt.alloc();
    let code = shifted_home(alloc);
    let expected = [
        0x0138, 0x0C66, 0x1C77, // MOVW r6, r16; ADD r6, r6; ADC r7, r7
        0x0174, 0x2CC1, 0x2CD1, // MOVW r14, r8; MOV r12, r1; MOV r13, r1
    ];
    let holds = is_spelled(alloc, &code, &expected);
    assert!(rt; holds);
}

fn halves_home(alloc: Global) -> Result<Row<Instr>, NoMemory> {
    let locations = wide_locations(alloc)?;
    let mut code = Row::new(alloc);
    put_shifts_right(&mut code, &locations, 4, 7, Operand::Local(6), 16)?;
    put_shifts_right(&mut code, &locations, 4, 3, Operand::Local(3), 16)?;
    put_shifts_right(&mut code, &locations, 2, 5, Operand::Local(8), 8)?;
    Ok(code)
}

// Shifts to the right by whole bytes: the high bytes of a local go to another one, to its own low ones, and from the frame to registers.
#[test]
fn shifts_to_the_right_are_put_home(rt: HostRuntime) {
    let alloc = rt.alloc();
    let code = halves_home(alloc);
    let expected = [
        0x0132, // MOVW r6, r4
        0x0145, 0x2CA1, 0x2CB1, // MOVW r8, r10; MOV r10, r1; MOV r11, r1
        0x810A, 0x2D11, // LDD r16, Y+2; MOV r17, r1
    ];
    let holds = is_spelled(alloc, &code, &expected);
    assert!(rt; holds);
}

fn divided(alloc: Global) -> Result<Row<Instr>, NoMemory> {
    let locations = pushing_locations(alloc, 4)?;
    let mut code = Row::new(alloc);
    put_divides_steps(&mut code, &locations, 3, 2, Operand::Known(5))?;
    Ok(code)
}

// The steps of a division: the way back leads from the word 48 to the word 1.
#[test]
fn divisions_are_put(rt: HostRuntime) {
    let alloc = rt.alloc();
    let code = divided(alloc);
    let expected = [
        0xE2B0, // LDI r27, 32
        0x816E, 0x817F, 0x2D81, 0x2D91, // LDD r22, Y+6; LDD r23, Y+7; MOV r24, r1; MOV r25, r1
        0x0F99, 0x2DA1, 0x1FAA, // ADD r25, r25; MOV r26, r1; ADC r26, r26
        0x816D, 0x2D71, 0x2D81, 0x2D91, // LDD r22, Y+5; MOV r23, r1; MOV r24, r1; MOV r25, r1
        0x95A6, 0x1F66, 0x1F77, 0x1F88, 0x1F99, // LSR r26; ADC r22, r22; and so to r25
        0xE025, 0xE030, 0xE040, 0xE050, // LDI r18, 5; LDI r19, 0; LDI r20, 0; LDI r21, 0
        0x1B62, 0x0B73, 0x0B84, 0x0B95, 0x0BAA, // SUB r22, r18; SBC r23, r19; and so to r25; SBC r26, r26
        0x232A, 0x233A, 0x234A, 0x235A, // AND r18, r26; and so to r21
        0x0F62, 0x1F73, 0x1F84, 0x1F95, 0x836D, // ADD r22, r18; ADC r23, r19; and so to r25; STD Y+5, r22
        0x816E, 0x817F, 0x2D81, 0x2D91, // LDD r22, Y+6; LDD r23, Y+7; MOV r24, r1; MOV r25, r1
        0x3FAF, 0x1F66, 0x1F77, 0x1F88, 0x1F99, // CPI r26, 0xFF; ADC r22, r22; and so to r25
        0x836E, 0x837F, // STD Y+6, r22; STD Y+7, r23
        0x95BA, 0xF009, 0xCFD0, // DEC r27; BREQ by 1 word; RJMP by -48 words
    ];
    let holds = is_spelled(alloc, &code, &expected);
    assert!(rt; holds);
}

fn dispatched(alloc: Global) -> Result<Row<Instr>, NoMemory> {
    let locations = pushing_locations(alloc, 3)?;
    let mut code = Row::new(alloc);
    let cases = [
        Case {
            first: 1,
            count: 2,
            procedure: 0,
        },
        Case {
            first: 3,
            count: 1,
            procedure: 1,
        },
        Case {
            first: 4,
            count: 5,
            procedure: 0,
        },
    ];
    put_finds_procedure(
        &mut code,
        &locations,
        &[0x0123, 0x0456],
        &cases,
        2,
        Operand::Local(2),
    )?;
    Ok(code)
}

// A dispatch of three cases: the code number of the procedure that two of them have comes first, and that of the other case overwrites it.
#[test]
fn dispatches_are_put(rt: HostRuntime) {
    let alloc = rt.alloc();
    let code = dispatched(alloc);
    let expected = [
        0x818D, 0x819E, 0xE263, 0xE071, // LDD r24, Y+5; LDD r25, Y+6; LDI r22, 0x23; LDI r23, 0x01
        0x01DC, 0x50A3, 0x40B0, 0x50A1, 0x40B0, // MOVW r26, r24; SUBI r26, 3; SBCI r27, 0; SUBI r26, 1; SBCI r27, 0
        0xF410, 0xE566, 0xE074, // BRCC by 2 words; LDI r22, 0x56; LDI r23, 0x04
        0x836D, 0x837E, // STD Y+5, r22; STD Y+6, r23
    ];
    let holds = is_spelled(alloc, &code, &expected);
    assert!(rt; holds);
}

fn entered_in_registers(alloc: Global) -> Result<Row<Instr>, NoMemory> {
    let locations = sample_locations(alloc, 0)?;
    let mut code = Row::new(alloc);
    put_prologue(&mut code, &locations)?;
    put_copies(&mut code, &locations, 1, Operand::Local(0))?;
    put_copies(&mut code, &locations, 0, Operand::Known(0x0123))?;
    put_returns_value(&mut code, &locations, Operand::Local(1), 1)?;
    Ok(code)
}

// Without parameters locals are in registers; those that are wanted behind no call are not saved, and there is no frame pointer.
#[test]
fn locals_are_in_registers(rt: HostRuntime) {
    let alloc = rt.alloc();
    let code = entered_in_registers(alloc);
    let expected = [
        0x2CA8, // MOV r10, r8
        0xE263, 0xE071, 0x014B, // LDI r22, 0x23; LDI r23, 0x01; MOVW r8, r22
        0x2D6A, 0x9508, // MOV r22, r10; RET
    ];
    let holds = is_spelled(alloc, &code, &expected);
    assert!(rt; holds);
}

fn entered_with_arguments(alloc: Global) -> Result<Row<Instr>, NoMemory> {
    let locations = taking_locations(alloc)?;
    let mut code = Row::new(alloc);
    put_prologue(&mut code, &locations)?;
    put_writes_device(alloc, &mut code, &locations, 0x38, Operand::Local(1))?;
    Ok(code)
}

// A parameter that is needed goes from the register in which it arrives to that of its local, and one that is not needed goes nowhere.
#[test]
fn parameters_arrive_in_registers(rt: HostRuntime) {
    let alloc = rt.alloc();
    let code = entered_with_arguments(alloc);
    let expected = [
        0x2EA4, // MOV r10, r20
        0xBAA8, // OUT 0x18, r10
    ];
    let holds = is_spelled(alloc, &code, &expected);
    assert!(rt; holds);
}

fn entered_and_waited(alloc: Global) -> Result<Row<Instr>, NoMemory> {
    let locations = lasting_locations(alloc)?;
    let mut code = Row::new(alloc);
    put_prologue(&mut code, &locations)?;
    put_copies(&mut code, &locations, 1, Operand::Local(0))?;
    put_returns_value(&mut code, &locations, Operand::Local(1), 1)?;
    Ok(code)
}

// The register of a local that is wanted behind a call is saved.
#[test]
fn lasting_locals_are_saved(rt: HostRuntime) {
    let alloc = rt.alloc();
    let code = entered_and_waited(alloc);
    let expected = [
        0x922F, 0x2C28, // PUSH r2; MOV r2, r8
        0x2D62, 0x902F, 0x9508, // MOV r22, r2; POP r2; RET
    ];
    let holds = is_spelled(alloc, &code, &expected);
    assert!(rt; holds);
}

fn entered_wide(alloc: Global) -> Result<Row<Instr>, NoMemory> {
    let locations = wide_locations(alloc)?;
    let mut code = Row::new(alloc);
    put_prologue(&mut code, &locations)?;
    put_copies(&mut code, &locations, 8, Operand::Local(2))?;
    put_copies(&mut code, &locations, 4, Operand::Local(3))?;
    put_returns_value(&mut code, &locations, Operand::Local(8), 1)?;
    Ok(code)
}

// What locals have beyond sixteen bytes is in slots, which SP leaves below it.
#[test]
fn other_locals_are_in_slots(rt: HostRuntime) {
    let alloc = rt.alloc();
    let code = entered_wide(alloc);
    let expected = [
        0x927F, 0x926F, 0x925F, 0x924F, 0x923F, 0x922F, // PUSH r7; and so to r2
        0x93DF, 0x93CF, 0xB7CD, 0xB7DE, // PUSH r29; PUSH r28; IN r28, SPL; IN r29, SPH
        0x9722, 0xBFDE, 0xBFCD, // SBIW r28, 2; OUT SPH, r29; OUT SPL, r28
        0x856D, 0x2D71, 0x8369, 0x837A, // LDD r22, Y+13; MOV r23, r1; STD Y+1, r22; STD Y+2, r23
        0x0164, 0x0175, // MOVW r12, r8; MOVW r14, r10
        0x8169, 0x9622, 0xBFDE, 0xBFCD, // LDD r22, Y+1; ADIW r28, 2; OUT SPH, r29; OUT SPL, r28
        0x91CF, 0x91DF, // POP r28; POP r29
        0x902F, 0x903F, 0x904F, 0x905F, 0x906F, 0x907F, // POP r2; and so to r7
        0x9508, // RET
    ];
    let holds = is_spelled(alloc, &code, &expected);
    assert!(rt; holds);
}

fn copied(
    alloc: Global,
    locations: &Locations,
    wide: u8,
    narrow: u8,
) -> Result<Row<Instr>, NoMemory>
    requires wide { wide < length locations.now.widths }
    requires narrow { narrow < length locations.now.widths }
{
    let mut code = Row::new(alloc);
    put_copies(&mut code, locations, narrow, Operand::Known(0))?;
    put_copies(&mut code, locations, wide, Operand::Known(5))?;
    put_copies_whole(&mut code, locations, wide, 5)?;
    Ok(code)
}

fn copied_in_the_frame(alloc: Global) -> Result<Row<Instr>, NoMemory> {
    let locations = pushing_locations(alloc, 4)?;
    copied(alloc, &locations, 2, 3)
}

fn copied_in_registers(alloc: Global) -> Result<Row<Instr>, NoMemory> {
    let locations = sample_locations(alloc, 0)?;
    copied(alloc, &locations, 0, 1)
}

// The zeros with which a known number ends come from r1, unless all numbers are to take as many words.
#[test]
fn zeros_are_not_loaded(rt: HostRuntime) {
    let alloc = rt.alloc();
    let in_frame = copied_in_the_frame(alloc);
    let expected_in_frame = [
        0x821D, // STD Y+5, r1
        0xE065, 0x836E, 0x821F, // LDI r22, 5; STD Y+6, r22; STD Y+7, r1
        0xE065, 0xE070, 0x836E, 0x837F, // LDI r22, 5; LDI r23, 0; STD Y+6, r22; STD Y+7, r23
    ];
    let in_registers = copied_in_registers(alloc);
    let expected_in_registers = [
        0x2CA1, // MOV r10, r1
        0xE065, 0x2E86, 0x2C91, // LDI r22, 5; MOV r8, r22; MOV r9, r1
        0xE065, 0xE070, 0x014B, // LDI r22, 5; LDI r23, 0; MOVW r8, r22
    ];
    let holds = is_spelled(alloc, &in_frame, &expected_in_frame)
        && is_spelled(alloc, &in_registers, &expected_in_registers);
    assert!(rt; holds);
}

fn stored(
    alloc: Global,
    locations: &Locations,
    wide: u8,
    narrow: u8,
) -> Result<Row<Instr>, NoMemory>
    requires wide { wide < length locations.now.widths }
    requires narrow { narrow < length locations.now.widths }
{
    let mut code = Row::new(alloc);
    let element = Address {
        base: 0x100,
        index: Operand::Local(wide),
    };
    let field = Address {
        base: 0x100,
        index: Operand::Known(4),
    };
    put_stores_column(alloc, &mut code, locations, 2, element, Operand::Known(5))?;
    put_stores_column(alloc, &mut code, locations, 2, field, Operand::Local(wide))?;
    put_stores_column(
        alloc,
        &mut code,
        locations,
        4,
        field,
        Operand::Known(0x0001_0000),
    )?;
    put_loads_column(&mut code, locations, 1, narrow, field)?;
    Ok(code)
}

fn stored_in_the_frame(alloc: Global) -> Result<Row<Instr>, NoMemory> {
    let locations = pushing_locations(alloc, 4)?;
    stored(alloc, &locations, 2, 3)
}

fn stored_in_registers(alloc: Global) -> Result<Row<Instr>, NoMemory> {
    let locations = sample_locations(alloc, 0)?;
    stored(alloc, &locations, 0, 1)
}

// Values are stored from where they are, zero bytes of a known number from r1; and one or two bytes at a known address need no pointer.
#[test]
fn columns_are_stored(rt: HostRuntime) {
    let alloc = rt.alloc();
    let in_frame = stored_in_the_frame(alloc);
    let expected_in_frame = [
        0x81AE, 0x81BF, 0x50A0, 0x4FBF, // LDD r26, Y+6; LDD r27, Y+7; SUBI r26, 0; SBCI r27, 0xFF
        0xE065, 0x936D, 0x921D, // LDI r22, 5; ST X+, r22; ST X+, r1
        0x816E, 0x817F, 0x9360, 0x0104, 0x9370, 0x0105, // LDD r22, Y+6; LDD r23, Y+7; STS 0x104, r22; STS 0x105, r23
        0xE0A4, 0xE0B1, 0xE081, // LDI r26, 4; LDI r27, 1; LDI r24, 1
        0x921D, 0x921D, 0x938D, 0x921D, // ST X+, r1; ST X+, r1; ST X+, r24; ST X+, r1
        0x9160, 0x0104, 0x836D, // LDS r22, 0x104; STD Y+5, r22
    ];
    let in_registers = stored_in_registers(alloc);
    let expected_in_registers = [
        0x01D4, 0x50A0, 0x4FBF, // MOVW r26, r8; SUBI r26, 0; SBCI r27, 0xFF
        0xE065, 0x936D, 0x921D, // LDI r22, 5; ST X+, r22; ST X+, r1
        0x9280, 0x0104, 0x9290, 0x0105, // STS 0x104, r8; STS 0x105, r9
        0xE0A4, 0xE0B1, 0xE081, // LDI r26, 4; LDI r27, 1; LDI r24, 1
        0x921D, 0x921D, 0x938D, 0x921D, // ST X+, r1; ST X+, r1; ST X+, r24; ST X+, r1
        0x90A0, 0x0104, // LDS r10, 0x104
    ];
    let holds = is_spelled(alloc, &in_frame, &expected_in_frame)
        && is_spelled(alloc, &in_registers, &expected_in_registers);
    assert!(rt; holds);
}

fn loaded_in_registers(alloc: Global) -> Result<Row<Instr>, NoMemory> {
    let locations = sample_locations(alloc, 0)?;
    let mut code = Row::new(alloc);
    let column = Address {
        base: 0x100,
        index: Operand::Local(0),
    };
    let table = Address {
        base: 0x8C,
        index: Operand::Known(4),
    };
    put_loads_column(&mut code, &locations, 1, 1, column)?;
    put_loads_table(&mut code, &locations, 2, 0, table)?;
    put_reads_device(&mut code, &locations, 0, 0x36)?;
    Ok(code)
}

// What is loaded or read comes into the registers of a local, and zeros come behind it where the local is wider.
#[test]
fn registers_are_loaded(rt: HostRuntime) {
    let alloc = rt.alloc();
    let code = loaded_in_registers(alloc);
    let expected = [
        0x01D4, 0x50A0, 0x4FBF, // MOVW r26, r8; SUBI r26, 0; SBCI r27, 0xFF
        0x90AD, // LD r10, X+
        0xE9E0, 0xE0F0, 0x9085, 0x9095, // LDI r30, 0x90; LDI r31, 0; LPM r8, Z+; LPM r9, Z+
        0xB286, 0x2C91, // IN r8, 0x16; MOV r9, r1
    ];
    let holds = is_spelled(alloc, &code, &expected);
    assert!(rt; holds);
}

fn copied_to_the_frame(alloc: Global) -> Result<Row<Instr>, NoMemory> {
    let locations = wide_locations(alloc)?;
    let mut code = Row::new(alloc);
    put_copies(&mut code, &locations, 8, Operand::Local(3))?;
    Ok(code)
}

// Registers are stored where they are.
#[test]
fn registers_go_to_the_frame(rt: HostRuntime) {
    let alloc = rt.alloc();
    let code = copied_to_the_frame(alloc);
    let expected = [0x8289, 0x829A]; // STD Y+1, r8; STD Y+2, r9
    let holds = is_spelled(alloc, &code, &expected);
    assert!(rt; holds);
}

fn computed_in_registers(alloc: Global) -> Result<Row<Instr>, NoMemory> {
    let locations = sample_locations(alloc, 0)?;
    let mut code = Row::new(alloc);
    let sum = Computation {
        operator: Operator::Plus,
        width: 1,
        to: 1,
        left: Operand::Local(1),
        right: Operand::Known(3),
    };
    put_computes(alloc, &mut code, &locations, sum)?;
    put_pushes_value(alloc, &mut code, &locations, 2, Operand::Local(0))?;
    put_writes_device(alloc, &mut code, &locations, 0x38, Operand::Local(1))?;
    let test = Test {
        comparison: Comparison::Same,
        width: 2,
        left: Operand::Local(0),
        right: Operand::Known(0),
    };
    put_tests(alloc, &mut code, &locations, test)?;
    Ok(code)
}

// Locals in registers wait, are written and are compared from where they are.
#[test]
fn registers_are_found(rt: HostRuntime) {
    let alloc = rt.alloc();
    let code = computed_in_registers(alloc);
    let expected = [
        0xE023, 0x0EA2, // LDI r18, 3; ADD r10, r18
        0x929F, 0x928F, // PUSH r9; PUSH r8
        0xBAA8, // OUT 0x18, r10
        0x1481, 0x0491, // CP r8, r1; CPC r9, r1
    ];
    let holds = is_spelled(alloc, &code, &expected);
    assert!(rt; holds);
}

fn computed_in_place(alloc: Global) -> Result<Row<Instr>, NoMemory> {
    let locations = wide_locations(alloc)?;
    let mut code = Row::new(alloc);
    let sum = Computation {
        operator: Operator::Plus,
        width: 4,
        to: 4,
        left: Operand::Local(3),
        right: Operand::Local(6),
    };
    let difference = Computation {
        operator: Operator::Minus,
        width: 4,
        to: 4,
        left: Operand::Local(3),
        right: Operand::Local(4),
    };
    put_computes(alloc, &mut code, &locations, sum)?;
    put_computes(alloc, &mut code, &locations, difference)?;
    Ok(code)
}

// A result is made in the registers of its local, unless the right operand is there.
#[test]
fn results_are_made_in_place(rt: HostRuntime) {
    let alloc = rt.alloc();
    let code = computed_in_place(alloc);
    let expected = [
        0x0164, 0x0175, // MOVW r12, r8; MOVW r14, r10
        0x0CC2, 0x1CD3, 0x1CE4, 0x1CF5, // ADD r12, r2; ADC r13, r3; and so to r15
        0x01B4, 0x01C5, // MOVW r22, r8; MOVW r24, r10
        0x196C, 0x097D, 0x098E, 0x099F, // SUB r22, r12; SBC r23, r13; and so to r25
        0x016B, 0x017C, // MOVW r12, r22; MOVW r14, r24
    ];
    let holds = is_spelled(alloc, &code, &expected);
    assert!(rt; holds);
}
