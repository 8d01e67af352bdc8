// A hierarchy of four levels.
ghost use Rattle.std.specs.Prelude.{◌≡◌, [], ◌∷◌, None, Some};
ghost use Rattle.vg_meaning.specs.Code.{Do, Nothing};
ghost use Rattle.vg_codes.specs.Dispatch.{procedure_for};
ghost use Rattle.vg_core.specs.declared.types.CoreType.TheVariants.{CharType, ClassType, IntType, RawType};
ghost use Rattle.vg_core.specs.declared.operator.Prefix.TheVariants.{Complement};
ghost use Rattle.vg_core.specs.declared.step.Step.TheVariants.{Apply, CallMethod, CastTo, IsBelow, MethodOf, SetField};
ghost use Rattle.vg_firm.specs.declared.step.Prefix.TheVariants as prefixes;
ghost use Rattle.vg_firm.specs.declared.step.Step.TheVariants as firm;
ghost use Rattle.vg_pack_calls.specs.Asked.{asked_from};
ghost use Rattle.vg_pack_calls.specs.Cases.{cases_of};
ghost use Rattle.vg_pack_calls.specs.Procedures.{procedures_from};
ghost use Rattle.vg_pack_code.specs.Plans.{moved};
ghost use Rattle.vg_tables.specs.Bytes.{delegate_bytes, low_bytes};
ghost use Rattle.vg_tables.specs.declared.datum.Datum.TheVariants.{Byte, CodeHigh, CodeLow};
ghost use Rattle.vg_pack_examples.specs.Worked.{asked_a, asked_c, case, numbers, own, plan, reason, tables};

/// The dispatches of a hierarchy of four levels: the objects 1 of A, 2 and 3 of B, 4 of D; C and D have another method than A and B, and C
/// has no object of its own. The body is empty: its contract is worked by hand, as those below.
pub fn four_levels()
    ensures all { cases_of tables numbers plan own asked_a ≡ case 1 1 0 ∷ case 2 2 0 ∷ case 4 1 1 ∷ [] }
    ensures below { cases_of tables numbers plan own asked_c ≡ case 4 1 1 ∷ [] }
    ensures third { procedure_for (cases_of tables numbers plan own asked_a) 3 ≡ Some 0 }
    ensures fourth { procedure_for (cases_of tables numbers plan own asked_a) 4 ≡ Some 1 }
    ensures fifth { procedure_for (cases_of tables numbers plan own asked_a) 5 ≡ None }
{}

/// Steps of this program: a store to a field without a column keeps its null check, a store to one with a column counts from the first
/// object that has it, casts and class tests are intervals, and calls name their dispatch.
pub fn steps()
    ensures dropped { moved tables numbers plan (SetField 9 1) ≡ Do firm.StoreNothing }
    ensures kept { moved tables numbers plan (SetField 9 0) ≡ Do (firm.StoreAt 0 2 4) }
    ensures cast { moved tables numbers plan (CastTo 9 (ClassType 0) (ClassType 1)) ≡ Do (firm.StopUnlessWithin 2 3) }
    ensures test { moved tables numbers plan (IsBelow 3) ≡ Do (firm.IsWithin 4 1) }
    ensures call { moved tables numbers plan (CallMethod 9 2 0 1) ≡ Do (firm.CallFor 1 1) }
    ensures named { moved tables numbers plan (MethodOf 9 0 0) ≡ Do (firm.BindFor 0) }
    ensures widened { moved tables numbers plan (CastTo 9 CharType IntType) ≡ Nothing }
    ensures cut { moved tables numbers plan (CastTo 9 IntType CharType) ≡ Do (firm.Apply (prefixes.Cut 8)) }
    ensures opposite { moved tables numbers plan (Apply Complement (RawType 12)) ≡ Do (firm.Apply (prefixes.Complement 12)) }
{}

/// The second of three methods is not live; what is asked for twice stands once; bytes come with the low one first.
pub fn lists()
    ensures procedures { procedures_from 0 (Some reason ∷ None ∷ Some reason ∷ []) ≡ Some 0 ∷ None ∷ Some 1 ∷ [] }
    ensures asked { asked_from [] (CallMethod 9 0 0 1 ∷ MethodOf 8 2 0 ∷ CallMethod 7 0 0 2 ∷ []) ≡ asked_a ∷ asked_c ∷ [] }
    ensures bytes { low_bytes 4 66051 ≡ Byte 3 ∷ Byte 2 ∷ Byte 1 ∷ Byte 0 ∷ [] }
    ensures delegates { delegate_bytes 7 258 ≡ CodeLow 7 ∷ CodeHigh 7 ∷ Byte 2 ∷ Byte 1 ∷ [] }
{}
