// Rows of types.
ghost use Rattle.std.specs.Prelude.{◌≡◌, true, length, map, IfOk, IfSome};
ghost use Rattle.std.specs.List.{AllByRecursion};
ghost use Rattle.vg_types_interned.specs.Types.{type_view, is_made_of, param_type, IsRowIn, IsFunctionIn};

use crate::found::written;
use crate::table::Types;
use std::alloc::Global;
use vg_base::{Names, NoMemory, Row};
use vg_core::CoreType;
use vg_tree::Param;

impl Types {
    /// The types, in order of their numbers.
    pub fn in_order(&self, alloc: Global) -> Result<Row<CoreType>, NoMemory>
        ensures { IfOk result (λ row. row ≡ self.now.numbers.keys) }
    {
        Ok(Row::from_vec(Vec::from_slice(alloc, self.numbers.as_slice())?))
    }
}

/// The types of parameters.
pub fn written_params(
    alloc: Global,
    types: &Types,
    names: &Names,
    params: &[Param],
) -> Result<Row<CoreType>, NoMemory>
    ensures views { IfOk result (λ row. map (type_view types.now.classes types.now.numbers.keys) row ≡ map (param_type names.now) params.now) }
    ensures made { IfOk result (AllByRecursion (λ t. is_made_of (length types.now.classes) (length types.now.numbers.keys) t ≡ true)) }
{
    let mut row = Row::new(alloc);
    'params: for param in params {
        match written(types, names, &param.type_) {
            Some(type_) => row.push(type_)?,
            // Cannot come: the types that are written in the text were all made before.
            None => return Err(NoMemory),
        }
    }
    Ok(row)
}

// The number of the row of these types.
fn row_number(types: &Types, params: &[CoreType]) -> Option<u32>
    ensures { IfSome result (IsRowIn types.now.numbers.keys params.now) }
{
    let mut rest = types.number(CoreType::NoType)?;
    'row: for index in (0..params.len()).rev() {
        let first = types.number(params[index])?;
        rest = types.number(CoreType::MoreTypes(first, rest))?;
    }
    Some(rest)
}

/// The number of the function type of these parameters and this result.
pub fn function_number(types: &Types, params: &[CoreType], value: CoreType) -> Option<u32>
    ensures { IfSome result (IsFunctionIn types.now.numbers.keys params.now value) }
{
    let row = row_number(types, params)?;
    let value = types.number(value)?;
    types.number(CoreType::FunctionType(row, value))
}
