// The cases of dispatches.
ghost use Rattle.std.specs.Prelude.{◌≡◌, ◌<◌, ◌++◌, IfOk, OnOk, get_or, length, map};
ghost use Rattle.vg_live.specs.Sets.{flat};
ghost use Rattle.vg_pack_calls.specs.Cases.{case_of, cases_from, cases_of, procedure_in};

use std::alloc::Global;
use vg_base::{NoMemory, Row};
use vg_codes::Case;
use vg_core::Tables;
use vg_number::Numbers;
use vg_pack_code::{Asked, Plan, span_of};
use vg_shape::lookup;

/// The dispatches: for each class and selector that is asked for, a case for each class at or below it that has kept objects of its own.
///
/// `own` has the number of kept objects of each class itself. There are at most 65,535 classes.
pub fn dispatches(
    alloc: Global,
    tables: &Tables,
    numbers: &Numbers,
    plan: &Plan,
    own: &[u16],
) -> Result<Row<Row<Case>>, NoMemory>
    requires { length tables.now.classes < 65536 }
    ensures { IfOk result (λ rows. rows ≡ map (cases_of tables.now numbers.now plan.now own.now) plan.now.asked) }
{
    let mut rows = Row::new(alloc);
    for asked in plan.asked.as_slice() {
        let row = cases(alloc, tables, numbers, plan, own, *asked)?;
        rows.push(row)?;
    }
    Ok(rows)
}

// The cases of one dispatch, in order of the classes.
fn cases(
    alloc: Global,
    tables: &Tables,
    numbers: &Numbers,
    plan: &Plan,
    own: &[u16],
    asked: Asked,
) -> Result<Row<Case>, NoMemory>
    requires { length tables.now.classes < 65536 }
    ensures { IfOk result (λ row. row ≡ cases_of tables.now numbers.now plan.now own.now asked) }
{
    let mut row = Row::new(alloc);
    for class in 0..tables.classes.len() {
        push_case(&mut row, tables, numbers, plan, own, asked, class as u16)?;
    }
    Ok(row)
}

// Puts the case of a class behind others, where its own objects need one.
fn push_case(
    row: &mut Row<Case>,
    tables: &Tables,
    numbers: &Numbers,
    plan: &Plan,
    own: &[u16],
    asked: Asked,
    class: u16,
) -> Result<(), NoMemory>
    ensures { OnOk result (row.new ≡ row.old ++ case_of tables.now numbers.now plan.now own.now asked class) }
{
    let count = own_objects(own, class);
    if count == 0 || !lookup::is_below(tables, class, asked.class) {
        return Ok(());
    }
    match procedure_found(tables, plan, class, asked.selector) {
        Some(procedure) => row.push(Case {
            first: span_of(numbers, class).first,
            count,
            procedure,
        }),
        None => Ok(()),
    }
}

// How many kept objects a class itself has.
fn own_objects(own: &[u16], class: u16) -> u16
    ensures { result ≡ get_or own.now class 0 }
{
    match own.get(usize::from(class)) {
        Some(count) => *count,
        None => 0,
    }
}

// The procedure of the method that an object of a class has for a selector.
fn procedure_found(tables: &Tables, plan: &Plan, class: u16, selector: u16) -> Option<u16>
    ensures { result ≡ procedure_in tables.now plan.now class selector }
{
    match lookup::dispatch(tables, class, selector) {
        Some(method) => match plan.procedures.as_slice().get(usize::from(method)) {
            Some(found) => *found,
            None => None,
        },
        None => None,
    }
}
