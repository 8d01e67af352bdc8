// The numbers of constants.
ghost use Rattle.std.specs.Prelude.{◌≡◌, [], get_or};
ghost use Rattle.vg_coded.specs.Numbers as coded;
ghost use Rattle.vg_pack_code.specs.Plans.{layout_by, no_codes};

use crate::plan::{Plan, number_of};
use vg_core::CoreValue;
use vg_number::Numbers;

/// The number of a constant. One that is a delegate, as none of a legal program is, has no code number.
pub fn constant(numbers: &Numbers, plan: &Plan, value: CoreValue) -> u32
    ensures { result ≡ coded.coded (layout_by [] numbers.now plan.now).numbering no_codes value }
{
    match value {
        CoreValue::Int(int) => int.cast_unsigned(),
        CoreValue::Bool(truth) => u32::from(truth),
        CoreValue::Char(byte) => u32::from(byte),
        CoreValue::Raw(_, bits) => bits,
        CoreValue::Null => 0,
        CoreValue::Obj(cell) => u32::from(number_of(numbers, cell)),
        CoreValue::Arr(cell) => u32::from(number_of(numbers, cell)),
        CoreValue::Bound(receiver, _) => match receiver {
            Some(cell) => 65536 * u32::from(number_of(numbers, cell)),
            None => 0,
        },
    }
}
