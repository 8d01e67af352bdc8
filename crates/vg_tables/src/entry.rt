// What an entry of a column begins with.
ghost use Rattle.std.specs.Prelude.{◌≡◌, []};
ghost use Rattle.vg_codes.specs.Codes.{Codes};
ghost use Rattle.vg_coded.specs.Numbers.{coded, receiver_number};
ghost use Rattle.vg_pack_code.specs.declared.plan.Plan.{Plan as PlanValue};
ghost use Rattle.vg_pack_code.specs.Plans.{layout_by};
ghost use Rattle.vg_tables.specs.Entries.{number_in};

use vg_core::CoreValue;
use vg_number::Numbers;
use vg_pack_code::{Plan, number_of};

/// What an entry of a column begins with.
#[derive(Clone, Copy, Debug, PartialEq, Eq)]
pub enum Entry {
    Number(u32),
    /// A delegate: a procedure, by its place in the packed program, and the number of its receiver, 0 where it has none.
    Delegate(u16, u16),
}

/// The entry of a value, whatever the code numbers are.
pub fn entry_of(numbers: &Numbers, plan: &Plan, value: CoreValue) -> Entry
    ensures { (k : Codes) → number_in k result ≡ coded (layout_by [] numbers.now plan.now).numbering k value }
{
    match value {
        CoreValue::Int(int) => Entry::Number(int.cast_unsigned()),
        CoreValue::Bool(truth) => Entry::Number(u32::from(truth)),
        CoreValue::Char(byte) => Entry::Number(u32::from(byte)),
        CoreValue::Raw(_, bits) => Entry::Number(bits),
        CoreValue::Null => Entry::Number(0),
        CoreValue::Obj(cell) => Entry::Number(u32::from(number_of(numbers, cell))),
        CoreValue::Arr(cell) => Entry::Number(u32::from(number_of(numbers, cell))),
        CoreValue::Bound(receiver, method) => {
            Entry::Delegate(plan.procedure(method), receiver_of(numbers, receiver))
        }
    }
}

// The number of a delegate's receiver: 0 where it has none.
fn receiver_of(numbers: &Numbers, receiver: Option<u32>) -> u16
    ensures { (x : PlanValue) → result ≡ receiver_number (layout_by [] numbers.now x).numbering receiver }
{
    match receiver {
        Some(cell) => number_of(numbers, cell),
        None => 0,
    }
}
