// The laws of dispatches and procedures.
ghost use Rattle.std.specs.Prelude.{◌≡◌, ◌<◌, ℕ, Bool, true, List, [], length, map, get_or, Option, Some, slice_get};
ghost use Rattle.vg_codes.specs.Dispatch.{dispatched};
ghost use Rattle.vg_core.specs.declared.program.Method.{Method};
ghost use Rattle.vg_core.specs.declared.program.Owner.TheVariants.{InClass};
ghost use Rattle.vg_core.specs.declared.program.Tables.{Tables};
ghost use Rattle.vg_core.specs.declared.step.Step.{Step};
ghost use Rattle.vg_core.specs.Heap.{Kind, ObjectOf};
ghost use Rattle.vg_core.specs.Program.{Program};
ghost use Rattle.vg_core.specs.Tables.{is_below, dispatch};
ghost use Rattle.vg_core.specs.Typing.{WellFormed};
ghost use Rattle.vg_live.specs.declared.live_set.Reason.{Reason};
ghost use Rattle.vg_live.specs.Sets.{flat};
ghost use Rattle.vg_live.specs.Uses.{steps_of, asked};
ghost use Rattle.vg_live.specs.Uses as uses;
ghost use Rattle.vg_numbers.specs.Numbers.{AreChains};
ghost use Rattle.vg_number.specs.declared.numbers.Numbers.{Numbers};
ghost use Rattle.vg_number.specs.Counting.{AreOwn};
ghost use Rattle.vg_number.specs.Numbering.{has_reason, IsNumbering};
ghost use Rattle.vg_pack_code.specs.declared.plan.Plan.{Plan};
ghost use Rattle.vg_pack_code.specs.Plans.{holds, place_of};
ghost use Rattle.vg_pack_calls.specs.Asked.{asked_from, is_there, steps_from};
ghost use Rattle.vg_pack_calls.specs.Cases.{cases_of};
ghost use Rattle.vg_pack_calls.specs.Procedures.{procedures_from};
ghost use Rattle.vg_pack_calls.specs.Receivers.{receivers_from};

/// In the dispatch of a class and a selector that are asked for, the number of a kept object of this class or below it has the procedure of the
/// method that the object finds. The body is empty: its contract is a law of the definitions, as those below.
pub fn objects_find_their_procedures()
    ensures { (p : Tables) → WellFormed p → AreChains p → (κ : List Kind) (kept : ℕ → Bool) (n : Numbers) → IsNumbering p κ kept n
        → (own : List ℕ) → AreOwn κ kept (length p.classes) own → (x : Plan) (c s j d m q : ℕ) → is_there x.asked c s ≡ true
        → slice_get κ j ≡ Some (ObjectOf d) → kept j ≡ true → is_below p d c ≡ true → dispatch p d s ≡ Some m
        → flat (slice_get x.procedures m) ≡ Some q
        → dispatched (map (cases_of p n x own) x.asked) (place_of x.asked c s) (get_or n.of_cell j 0) ≡ Some q }
{}

/// What a step of a live method asks for is among what is asked for.
pub fn live_steps_are_asked()
    ensures { (p : Program) (live : List (Option Reason)) (m i : ℕ) (s : Step) (a : uses.Asked) → has_reason live m ≡ true
        → slice_get (steps_of p m) i ≡ Some s → asked s ≡ Some a → is_there (asked_from [] (steps_from p 0 live)) a.class a.selector ≡ true }
{}

/// A method has a procedure exactly where it is live.
pub fn live_methods_have_procedures()
    ensures have { (live : List (Option Reason)) (m : ℕ) → has_reason live m ≡ true
        → (q : ℕ) × (flat (slice_get (procedures_from 0 live) m) ≡ Some q) }
    ensures alone { (live : List (Option Reason)) (m q : ℕ) → flat (slice_get (procedures_from 0 live) m) ≡ Some q → has_reason live m ≡ true }
{}

/// The procedure of a method of a class gets a receiver, and so does that of each method that a delegate may be of.
pub fn methods_get_receivers()
    ensures classes { (bindable : List Bool) (ys : List Method) (m c : ℕ) (y : Method) → slice_get ys m ≡ Some y → y.owner ≡ InClass c
        → holds (slice_get (receivers_from bindable 0 ys) m) ≡ true }
    ensures bindable { (bindable : List Bool) (ys : List Method) (m : ℕ) → m < length ys → holds (slice_get bindable m) ≡ true
        → holds (slice_get (receivers_from bindable 0 ys) m) ≡ true }
{}
