// What parts of types make of their kids.
ghost use Rattle.std.specs.Prelude.{◌≡◌, List, [], ℕ, IfOk, map};
ghost use Rattle.vg_syntax.specs.Tree.{MoreTypes};
ghost use Rattle.vg_syntax.specs.Made.{Types, types_in};
ghost use Rattle.vg_syntax.specs.Reads.{kids_of, value, result_type, type_of, types, more_types, plain, dimensions, atom_of, atom, simple_type, raw_or_inner};
ghost use Rattle.vg_syntax.specs.Reads.{other_atom};
ghost use Rattle.vg_tree.specs.Held.{text_at, type_at};
ghost use Rattle.vg_tree.specs.HeldMade.{made_at, value_at};

use std::alloc::Global;
use vg_base::{Name, NoMemory, Place};
use vg_syntax::Kind;
use vg_tree::TypeTree;
use vg_tree::contents::{all_in, kind_in, levels_in, taken, text_in, type_in, types_in};
use vg_tree::made::{Made, Value};
use vg_tree::rows::unwritten;
use vg_tree::types::{array_of, row_of_types};

/// What stands behind the colon of a result, or no type.
pub fn result_type(kids: &mut [Value]) -> Value
    ensures { (texts : List (List ℕ)) → value_at texts result ≡ result_type (kids_of (map (value_at texts) kids.old)) }
{
    match kids {
        [colon, inner] => Value {
            place: colon.place,
            made: Made::Type(type_in(&mut inner.made)),
        },
        _ => unwritten(Made::Type(TypeTree::Nothing)),
    }
}

/// A function type, or a type without one.
pub fn type_of(alloc: Global, kids: &mut [Value]) -> Result<Value, NoMemory>
    ensures { (texts : List (List ℕ)) → IfOk result (λ v. value_at texts v ≡ type_of (kids_of (map (value_at texts) kids.old))) }
{
    match kids {
        [inner] => Ok(taken(inner)),
        [word, params, result] => {
            let params = Box::new(alloc, row_of_types(types_in(alloc, &mut params.made)))?;
            let result = Box::new(alloc, type_in(&mut result.made))?;
            Ok(Value {
                place: word.place,
                made: Made::Type(TypeTree::Function(params, result)),
            })
        }
        _ => Ok(unwritten(Made::Absent)),
    }
}

/// A type before what a row behind it holds.
pub fn type_before(
    alloc: Global,
    place: Place,
    first: TypeTree,
    rest: &mut Made,
) -> Result<Value, NoMemory>
    ensures { (texts : List (List ℕ)) → IfOk result (λ v. value_at texts v
        ≡ value place (Types (MoreTypes (type_at texts first) (types_in (made_at texts rest.old))))) }
{
    let mut types = types_in(alloc, rest);
    types.push(first)?;
    Ok(Value {
        place,
        made: Made::Types(types),
    })
}

/// A first type, and a row behind it.
pub fn types(alloc: Global, kids: &mut [Value]) -> Result<Value, NoMemory>
    ensures { (texts : List (List ℕ)) → IfOk result (λ v. value_at texts v ≡ types (kids_of (map (value_at texts) kids.old))) }
{
    match kids {
        [first, rest] => type_before(alloc, first.place, type_in(&mut first.made), &mut rest.made),
        _ => Ok(unwritten(Made::Types(Vec::new(alloc)))),
    }
}

/// A type behind a comma, and a row behind it.
pub fn more_types(alloc: Global, kids: &mut [Value]) -> Result<Value, NoMemory>
    ensures { (texts : List (List ℕ)) → IfOk result (λ v. value_at texts v ≡ more_types (kids_of (map (value_at texts) kids.old))) }
{
    match kids {
        [comma, first, rest] => type_before(
            alloc,
            comma.place,
            type_in(&mut first.made),
            &mut rest.made,
        ),
        _ => Ok(unwritten(Made::Types(Vec::new(alloc)))),
    }
}

/// A type without array levels, and the levels over it.
pub fn plain(alloc: Global, kids: &mut [Value]) -> Result<Value, NoMemory>
    ensures { (texts : List (List ℕ)) → IfOk result (λ v. value_at texts v ≡ plain (kids_of (map (value_at texts) kids.old))) }
{
    match kids {
        [inner, over] => {
            let (levels, _suffixes) = levels_in(alloc, &mut over.made);
            let whole = array_of(alloc, levels, type_in(&mut inner.made))?;
            Ok(Value {
                place: inner.place,
                made: Made::Type(whole),
            })
        }
        _ => Ok(unwritten(Made::Absent)),
    }
}

/// Array levels: one more than those behind its brackets.
pub fn dimensions(alloc: Global, kids: &mut [Value]) -> Result<Value, NoMemory>
    ensures { (texts : List (List ℕ)) → IfOk result (λ v. value_at texts v ≡ dimensions (kids_of (map (value_at texts) kids.old))) }
{
    match kids {
        [left, _, rest] => {
            let (mut levels, _suffixes) = levels_in(alloc, &mut rest.made);
            levels.push(left.place)?;
            Ok(Value {
                place: left.place,
                made: Made::Levels(levels, Vec::new(alloc)),
            })
        }
        _ => Ok(unwritten(Made::Levels(Vec::new(alloc), Vec::new(alloc)))),
    }
}

/// The type that a name stands for; what is no name stays.
pub fn atom_of(made: &mut Made) -> Made
    ensures { (texts : List (List ℕ)) → made_at texts result ≡ atom_of (made_at texts made.old) }
{
    match made {
        Made::Word(_, name) => Made::Type(TypeTree::Class(*name)),
        other => all_in(other),
    }
}

/// A type without array levels.
pub fn atom(kids: &mut [Value]) -> Value
    ensures { (texts : List (List ℕ)) → value_at texts result ≡ atom (kids_of (map (value_at texts) kids.old)) }
{
    match kids {
        [inner] => Value {
            place: inner.place,
            made: atom_of(&mut inner.made),
        },
        _ => unwritten(Made::Absent),
    }
}

/// The type of a reserved word.
pub fn simple_type(kind: Kind) -> TypeTree
    ensures { (texts : List (List ℕ)) → type_at texts result ≡ simple_type kind }
{
    match kind {
        Kind::Int => TypeTree::Int,
        Kind::Bool => TypeTree::Bool,
        _ => TypeTree::Char,
    }
}

/// A raw type by its width, or the type in parentheses.
pub fn raw_or_inner(nameless: Name, kind: Kind, inner: &mut Made, last: &Made) -> TypeTree
    ensures { (texts : List (List ℕ)) → text_at texts nameless ≡ []
        → type_at texts result ≡ raw_or_inner kind (made_at texts inner.old) (made_at texts last.now) }
{
    match kind {
        Kind::Raw => TypeTree::Raw(text_in(nameless, last)),
        _ => type_in(inner),
    }
}

/// A type without array levels that is no class.
pub fn other_atom(nameless: Name, kids: &mut [Value]) -> Value
    ensures { (texts : List (List ℕ)) → text_at texts nameless ≡ [] → value_at texts result ≡ other_atom (kids_of (map (value_at texts) kids.old)) }
{
    match kids {
        [word] => Value {
            place: word.place,
            made: Made::Type(simple_type(kind_in(&word.made))),
        },
        [first, inner, last] => {
            let kind = kind_in(&first.made);
            Value {
                place: first.place,
                made: Made::Type(raw_or_inner(nameless, kind, &mut inner.made, &last.made)),
            }
        }
        _ => unwritten(Made::Absent),
    }
}
