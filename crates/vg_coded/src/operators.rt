// The laws of operators.
ghost use Rattle.std.specs.Prelude.{◌≡◌, ◌≤◌, ℕ, Bool, true, List, Option, Some};
ghost use Rattle.std.specs.Option.{option_map};
ghost use Rattle.vg_source.specs.Operators.{Scalar, Format, ToInt, ToChar, ToBits, on_scalars, prefixed, recast};
ghost use Rattle.vg_core.specs.declared.heap.Cell.{Cell};
ghost use Rattle.vg_core.specs.declared.operator.Operator.{Operator};
ghost use Rattle.vg_core.specs.declared.operator.Prefix.{Prefix};
ghost use Rattle.vg_core.specs.declared.program.Tables.{Tables};
ghost use Rattle.vg_core.specs.declared.types.CoreType.{CoreType};
ghost use Rattle.vg_core.specs.declared.types.CoreType.TheVariants.{IntType, CharType, RawType};
ghost use Rattle.vg_core.specs.Operators.{scalar_value, operator_of, prefix_of};
ghost use Rattle.vg_core.specs.State.{is_of};
ghost use Rattle.vg_firm.specs.Operators.{computed, has_strings, applied, has_string};
ghost use Rattle.vg_coded.specs.Numbers.{scalar_number, IsInRange};
ghost use Rattle.vg_coded.specs.Operators.{operator_for, prefix_for, cut_for, StandsFor, cut_by};

/// Operators of packed programs compute the numbers of what those of typed ones compute, of all values in their ranges, and what is
/// computed is in its range. A cast among numbers does so too. The body is empty: its contract is a law of the definitions.
pub fn operators_agree()
    ensures two { (p : Tables) (cells : List Cell) (op : Operator) (t u : CoreType) (x y : Scalar)
        → is_of p cells t (scalar_value x) ≡ true → is_of p cells u (scalar_value y) ≡ true → IsInRange x → IsInRange y
        → StandsFor (has_strings (operator_for op t u) (scalar_number x) (scalar_number y))
        (computed (operator_for op t u) (scalar_number x) (scalar_number y)) (on_scalars (operator_of op) x y) }
    ensures one { (p : Tables) (cells : List Cell) (op : Prefix) (t : CoreType) (x : Scalar)
        → is_of p cells t (scalar_value x) ≡ true → IsInRange x
        → StandsFor (has_string (prefix_for op t) (scalar_number x)) (Some (applied (prefix_for op t) (scalar_number x))) (prefixed (prefix_of op) x) }
    ensures to_int { (p : Tables) (cells : List Cell) (t : CoreType) (x : Scalar) → is_of p cells t (scalar_value x) ≡ true → IsInRange x
        → StandsFor true (Some (cut_by (cut_for t IntType) (scalar_number x))) (recast ToInt x) }
    ensures to_char { (p : Tables) (cells : List Cell) (t : CoreType) (x : Scalar) → is_of p cells t (scalar_value x) ≡ true → IsInRange x
        → StandsFor true (Some (cut_by (cut_for t CharType) (scalar_number x))) (recast ToChar x) }
    ensures to_bits { (p : Tables) (cells : List Cell) (t : CoreType) (k : ℕ) (x : Scalar) → k ≤ 32 → is_of p cells t (scalar_value x) ≡ true → IsInRange x
        → StandsFor true (Some (cut_by (cut_for t (RawType k)) (scalar_number x))) (recast (ToBits k) x) }
{}
