// The procedures.
ghost use Rattle.std.specs.Prelude.{◌≡◌, ◌<◌, ◌++◌, IfOk, OnOk, MatchOption, None, Some, length, map, slice_get};
ghost use Rattle.vg_core.specs.HeldProgram.{body_at};
ghost use Rattle.vg_firm.specs.Held.{procedure_of};
ghost use Rattle.vg_live.specs.Sets.{flat};
ghost use Rattle.vg_pack_code.specs.Plans.{holds, row_in};
ghost use Rattle.vg_packing.specs.Pass.{is_class};
ghost use Rattle.vg_pack_bodies.specs.Procedures.{HaveFewParameters, packed_at, packed_here, packed_if, packed_methods};

use crate::locals::{copied, widths};
use std::alloc::Global;
use vg_base::{NoMemory, Row};
use vg_core::{Body, Method, Owner, Program, Tables};
use vg_firm::Procedure;
use vg_number::Numbers;
use vg_pack_code::{Plan, packed_code, width_of};
use vg_pairs::without_pairs;

/// The procedures of the methods that have one by the plan, in order of the text.
///
/// A method has at most 60 parameters, and fewer than 4,294,967,296 pairs of a class and a selector are asked for.
pub fn procedures(
    alloc: Global,
    program: &Program,
    numbers: &Numbers,
    plan: &Plan,
) -> Result<Vec<Procedure>, NoMemory>
    requires methods { length program.now.tables.methods < 65536 }
    requires params { HaveFewParameters program.now.tables.methods }
    requires asked { length plan.now.asked < 4294967296 }
    ensures { IfOk result (λ v. map procedure_of v.items
        ≡ packed_methods program.now.tables numbers.now plan.now 0 program.now.tables.methods (map body_at program.now.methods)) }
{
    let methods = program.tables.methods.as_slice();
    let mut rows = Vec::new(alloc);
    for index in 0..methods.len() {
        push_method(
            alloc,
            &mut rows,
            program,
            numbers,
            plan,
            index as u16,
            &methods[index],
        )?;
    }
    Ok(rows)
}

// Puts the procedure of a method behind others, where the method has a body and a procedure.
fn push_method(
    alloc: Global,
    rows: &mut Vec<Procedure>,
    program: &Program,
    numbers: &Numbers,
    plan: &Plan,
    number: u16,
    method: &Method,
) -> Result<(), NoMemory>
    requires params { length method.now.params < 61 }
    requires asked { length plan.now.asked < 4294967296 }
    ensures { OnOk result (map procedure_of rows.new.items ≡ map procedure_of rows.old.items
        ++ packed_at program.now.tables numbers.now plan.now number method.now (slice_get (map body_at program.now.methods) number)) }
{
    match body_of(program, number) {
        Some(body) => push_if_live(
            alloc,
            rows,
            &program.tables,
            numbers,
            plan,
            number,
            method,
            body,
        ),
        None => Ok(()),
    }
}

// The body of a method.
fn body_of(program: &Program, number: u16) -> Option<&Body>
    ensures { MatchOption result (slice_get (map body_at program.entry.now.methods) number ≡ None) (λ found.
        slice_get (map body_at program.entry.now.methods) number ≡ Some (body_at found.now)) }
{
    program.methods.as_slice().get(usize::from(number))
}

// Puts the procedure of a method behind others, where it has one.
fn push_if_live(
    alloc: Global,
    rows: &mut Vec<Procedure>,
    tables: &Tables,
    numbers: &Numbers,
    plan: &Plan,
    number: u16,
    method: &Method,
    body: &Body,
) -> Result<(), NoMemory>
    requires params { length method.now.params < 61 }
    requires asked { length plan.now.asked < 4294967296 }
    ensures { OnOk result (map procedure_of rows.new.items ≡ map procedure_of rows.old.items
        ++ packed_if tables.now numbers.now plan.now number method.now (body_at body.now)) }
{
    match procedure_of_method(plan, number) {
        Some(_) => {
            let packed = procedure(alloc, tables, numbers, plan, number, method, body)?;
            rows.push(packed)?;
        }
        None => {}
    }
    Ok(())
}

// The procedure of a method by its number.
fn procedure_of_method(plan: &Plan, number: u16) -> Option<u16>
    ensures { result ≡ flat (slice_get plan.now.procedures number) }
{
    match plan.procedures.as_slice().get(usize::from(number)) {
        Some(found) => *found,
        None => None,
    }
}

// What a method becomes.
fn procedure(
    alloc: Global,
    tables: &Tables,
    numbers: &Numbers,
    plan: &Plan,
    number: u16,
    method: &Method,
    body: &Body,
) -> Result<Procedure, NoMemory>
    requires params { length method.now.params < 61 }
    requires asked { length plan.now.asked < 4294967296 }
    ensures { IfOk result (λ r. procedure_of r ≡ packed_here tables.now numbers.now plan.now number method.now (body_at body.now)) }
{
    let widths = widths(alloc, method.params.as_slice(), body.others.as_slice())?;
    let calls = copied(alloc, edges(plan, number))?;
    let code = without_pairs(alloc, &body.code)?;
    let body = packed_code(alloc, tables, numbers, plan, &code)?;
    Ok(Procedure {
        method: number,
        params: method.params.len() as u8,
        receives: receives(plan, number),
        on_objects: is_class(method.owner),
        widths,
        result: width_of(method.result),
        calls,
        body,
    })
}

// Whether the procedure of a method gets a receiver.
fn receives(plan: &Plan, number: u16) -> bool
    ensures { result ≡ holds (slice_get plan.now.receives number) }
{
    match plan.receives.as_slice().get(usize::from(number)) {
        Some(found) => *found,
        None => false,
    }
}

// Whether it is a class that declares a method.
fn is_class(owner: Owner) -> bool
    ensures { result ≡ is_class owner }
{
    match owner {
        Owner::InClass(_) => true,
        Owner::InComponent(_) => false,
    }
}

// The procedures that the one of a method may call.
fn edges(plan: &Plan, number: u16) -> &[u16]
    ensures { result.now ≡ row_in (slice_get plan.entry.now.edges number) }
{
    match plan.edges.as_slice().get(usize::from(number)) {
        Some(row) => row.as_slice(),
        None => &[],
    }
}
