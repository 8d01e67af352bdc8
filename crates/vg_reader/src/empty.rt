// Levels of operators that have no operator, which most parts of a parse are.
ghost use Rattle.std.specs.Prelude.{◌≡◌, List, ℕ, true};
ghost use Rattle.vg_syntax.specs.Tree.{Nothing};
ghost use Rattle.vg_syntax.specs.Made.{Row, Value as MadeValue, row_in};
ghost use Rattle.vg_syntax.specs.Reads.{Kids, Zero, Two, unwritten, level, made};
ghost use Rattle.vg_tree.specs.HeldMade.{made_at, value_at};

use vg_syntax::Part;
use vg_tree::made::{Made, Value};

/// Whether a part is what stands behind the first operand of a level, so that without kids it is an empty row.
pub fn is_rest(part: Part) -> bool
    ensures { result ≡ true → made part Zero ≡ unwritten (Row Nothing) }
{
    match part {
        Part::OrRest
        | Part::AndRest
        | Part::EqualityRest
        | Part::ComparisonRest
        | Part::BitOrRest
        | Part::BitXorRest
        | Part::BitAndRest
        | Part::ShiftRest
        | Part::ConcatRest
        | Part::SumRest
        | Part::ProductRest
        | Part::CastRest => true,
        _ => false,
    }
}

/// Whether a part of two kids, the second of which is `rest`, is what its first kid is: a level that has no operator.
pub fn is_first_kid(part: Part, rest: &Value) -> bool
    ensures { (texts : List (List ℕ)) → (first : MadeValue) → result ≡ true → made part (Two first (value_at texts rest.now)) ≡ first }
{
    is_level(part) && is_empty_row(&rest.made)
}

// Whether a part is a level of operators.
fn is_level(part: Part) -> bool
    ensures { (kids : Kids) → result ≡ true → made part kids ≡ level kids }
{
    match part {
        Part::Expression
        | Part::AndLevel
        | Part::EqualityLevel
        | Part::ComparisonLevel
        | Part::BitOrLevel
        | Part::BitXorLevel
        | Part::BitAndLevel
        | Part::ShiftLevel
        | Part::ConcatLevel
        | Part::SumLevel
        | Part::ProductLevel
        | Part::CastLevel => true,
        _ => false,
    }
}

// Whether a row is written, and is empty.
fn is_empty_row(made: &Made) -> bool
    ensures { (texts : List (List ℕ)) → result ≡ true → row_in (made_at texts made.now) ≡ Nothing }
{
    match made {
        Made::Row(nodes) => nodes.is_empty(),
        _ => false,
    }
}
