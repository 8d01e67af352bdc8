// The parameters of a function type.
ghost use Rattle.std.specs.Prelude.{◌≡◌, List, IfOk, IfSome, IsSome};
ghost use Rattle.vg_core.specs.declared.types.CoreType.{CoreType};
ghost use Rattle.vg_core.specs.Tables.{IsRow};
ghost use Rattle.vg_types_tables.specs.Declares.{IsFormed};
ghost use Rattle.vg_types_functions.specs.Functions.{AreParams};
ghost use Rattle.vg_types_functions.specs.Rows.{parts_of, is_end};

use std::alloc::Global;
use vg_base::{NoMemory, Row};
use vg_core::CoreType;
use vg_types_tables::{Declared, type_of_number};

/// The types of parameters, from the number of their row. None exactly where this is not the number of a row.
pub fn params_of(
    alloc: Global,
    declared: &Declared,
    params: u32,
) -> Result<Option<Row<CoreType>>, NoMemory>
    requires formed { IsFormed declared.now.tables }
    ensures row { IfOk result (λ o. IfSome o (λ ts. AreParams declared.now.tables ts params)) }
    ensures found { (ts : List CoreType) → IsRow declared.now.tables ts params → IfOk result (λ o. IsSome o) }
{
    let mut types = Row::new(alloc);
    let mut number = params;
    while let Some(type_) = type_of_number(declared, number) {
        match parts_of(type_) {
            Some((first, rest)) => match type_of_number(declared, first) {
                Some(each) => {
                    types.push(each)?;
                    number = rest;
                }
                None => return Ok(None),
            },
            None => {
                if is_end(type_) {
                    return Ok(Some(types));
                }
                return Ok(None);
            }
        }
    }
    Ok(None)
}

// The parts of a row that is not at its end: the number of its first type, and that of the row behind it.
fn parts_of(type_: CoreType) -> Option<(u32, u32)>
    ensures { result ≡ parts_of type_ }
{
    match type_ {
        CoreType::MoreTypes(first, rest) => Some((first, rest)),
        _ => None,
    }
}

// Whether a type is the end of a row.
fn is_end(type_: CoreType) -> bool
    ensures { result ≡ is_end type_ }
{
    match type_ {
        CoreType::NoType => true,
        _ => false,
    }
}
