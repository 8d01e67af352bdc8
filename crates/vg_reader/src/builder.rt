// From the steps of a parse to the values that they make.
ghost use Rattle.std.specs.Prelude.{◌≡◌, ◌≤◌, ◌<◌, ◌-◌, ◌+◌, ◌^◌, ℕ, List, [], true, length, map, take, IfOk, OnOk};
ghost use Rattle.std.specs.List.{AllByRecursion};
ghost use Rattle.vg_tree.specs.Held.{text_at};
ghost use Rattle.vg_tree.specs.HeldMade.{value_at};
ghost use Rattle.vg_reader.specs.Derivation.{reduced, run};
ghost use Rattle.vg_reader.specs.Grown.{Grown};
ghost use Rattle.vg_texts.specs.Spelled.{IsSpelled};

use crate::derivation::Derivation;
use crate::empty::{is_first_kid, is_rest};
use crate::leaves::leaf_of;
use crate::maker::make;
use std::alloc::Global;
use vg_base::{Name, Names, NoMemory};
use vg_grammar::Step;
use vg_syntax::Part;
use vg_tree::rows::unwritten;
use vg_tree::{Made, Value};

/// What the steps make of the tokens: a value for each part that stands in no other. The text of the name `nameless` is to be empty.
pub(crate) fn build(
    alloc: Global,
    bytes: &[u8],
    derivation: &Derivation,
    nameless: Name,
    names: &mut Names,
) -> Result<Vec<Value>, NoMemory>
    requires spelled { AllByRecursion (IsSpelled bytes.now) derivation.now.tokens.items }
    requires nameless { (texts : List (List ℕ)) → Grown names.old texts → text_at texts nameless ≡ [] }
    requires room { length names.old + length derivation.now.tokens.items < 2 ^ 32 - 1 }
    ensures values { IfOk result (λ v. (texts : List (List ℕ)) → Grown names.new texts
        → map (value_at texts) v.items ≡ run bytes.now derivation.now.steps.items derivation.now.tokens.items []) }
    ensures names { Grown names.old names.new }
    ensures few { length names.new ≤ length names.old + length derivation.now.tokens.items }
{
    let tokens = derivation.tokens.as_slice();
    let mut values = Vec::new(alloc);
    let mut at = 0;
    for step in derivation.steps.as_slice() {
        match step {
            Step::Make(part, count) => reduce(
                alloc,
                nameless,
                &mut values,
                *part,
                *count as usize,
            )?,
            Step::Take => {
                if let Some(token) = tokens.get(at) {
                    let value = leaf_of(bytes, token, names)?;
                    values.push(value)?;
                    at += 1;
                }
            }
        }
    }
    Ok(values)
}

// Makes a part of the last values. Of the levels of operators, most have no operator: these are the value that is there.
fn reduce(
    alloc: Global,
    nameless: Name,
    values: &mut Vec<Value>,
    part: Part,
    count: usize,
) -> Result<(), NoMemory>
    ensures { (texts : List (List ℕ)) → text_at texts nameless ≡ []
        → OnOk result (map (value_at texts) values.new.items ≡ reduced part count (map (value_at texts) values.old.items)) }
{
    if count == 0 && is_rest(part) {
        values.push(unwritten(Made::Row(Vec::new(alloc))))?;
        return Ok(());
    }
    if count == 2 && is_there(part, values.as_slice()) {
        values.pop();
        return Ok(());
    }
    make_last(alloc, nameless, values, part, count)
}

// Whether a part of the last two values is the first of them.
fn is_there(part: Part, values: &[Value]) -> bool
    ensures { (texts : List (List ℕ)) → result ≡ true → map (value_at texts) (take (length values.now - 1) values.now)
        ≡ reduced part 2 (map (value_at texts) values.now) }
{
    match values.last() {
        Some(rest) => values.len() > 1 && is_first_kid(part, rest),
        None => false,
    }
}

// Makes a part of the last values, whatever it is.
fn make_last(
    alloc: Global,
    nameless: Name,
    values: &mut Vec<Value>,
    part: Part,
    count: usize,
) -> Result<(), NoMemory>
    ensures { (texts : List (List ℕ)) → text_at texts nameless ≡ []
        → OnOk result (map (value_at texts) values.new.items ≡ reduced part count (map (value_at texts) values.old.items)) }
{
    let at = values.len().saturating_sub(count);
    let (_, kids) = values.as_mut_slice().split_at_mut(at);
    let value = make(alloc, nameless, part, kids)?;
    values.truncate(at);
    values.push(value)?;
    Ok(())
}
