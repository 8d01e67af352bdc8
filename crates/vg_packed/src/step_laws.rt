// The laws of packed code.
ghost use Rattle.std.specs.Prelude.{◌≡◌, ℕ, List, Option, Some, slice_get};
ghost use Rattle.vg_codes.specs.Codes.{Codes};
ghost use Rattle.vg_core.specs.declared.heap.Heap.{Heap};
ghost use Rattle.vg_core.specs.declared.program.Target.TheVariants.{Run};
ghost use Rattle.vg_core.specs.declared.program.Tables.{Tables};
ghost use Rattle.vg_core.specs.declared.step.Step.{Step};
ghost use Rattle.vg_core.specs.Heap.{Kind};
ghost use Rattle.vg_core.specs.Program.{Body, Program, Signature, signature_of};
ghost use Rattle.vg_live.specs.declared.live_set.Reason.{Reason};
ghost use Rattle.vg_live.specs.Sets.{flat};
ghost use Rattle.vg_number.specs.declared.numbers.Numbers.{Numbers};
ghost use Rattle.vg_number.specs.Numbering.{kinds_of, AreListed};
ghost use Rattle.vg_packing.specs.Pass.{move, packed};
ghost use Rattle.vg_sound.specs.Good.{HasTypedHeap};
ghost use Rattle.vg_packed.specs.Plain.{IsPlain, IsPlainStep};
ghost use Rattle.vg_pack_code.specs.declared.plan.Plan.{Plan};
ghost use Rattle.vg_pack_code.specs.Plans.{layout_by, moved};
ghost use Rattle.vg_pack_bodies.specs.Procedures.{packed_methods};
ghost use Rattle.vg_pack_calls.specs.Procedures.{procedures_from};
ghost use Rattle.vg_packed.specs.Few.{HasFewArguments, HaveFewArguments};

/// A step of a plain method, which is no call of a method with more than 255 arguments, becomes what the pass makes of it, whatever the kinds
/// of the cells and the code numbers. The body is empty: its contract is a law of the definitions, as those below.
pub fn steps_are_packed()
    ensures { (p : Tables) (κ : List Kind) (n : Numbers) (x : Plan) (k : Codes) (s : Step) → IsPlainStep s → HasFewArguments s
        → move p (layout_by κ n x) k s ≡ moved p n x s }
{}

/// In the program to which a plain program is packed, the procedure of a live method is what the pass makes of the method.
pub fn procedures_are_packed()
    ensures { (p : Program) (κ : List Kind) (n : Numbers) (x : Plan) (k : Codes) (live : List (Option Reason)) → IsPlain p → HaveFewArguments p
        → x.procedures ≡ procedures_from 0 live → (m q : ℕ) (g : Signature) (b : Body) → flat (slice_get x.procedures m) ≡ Some q
        → signature_of p.tables (Run m) ≡ Some g → slice_get p.methods m ≡ Some b
        → slice_get (packed_methods p.tables n x 0 p.tables.methods p.methods) q ≡ Some (packed p.tables (layout_by κ n x) k m g b) }
{}

/// In a typed heap the class of each object, and the type of the elements of each array, are in the tables: what numbering and placing ask
/// for.
pub fn typed_heaps_are_listed()
    ensures { (p : Tables) (h : Heap) → HasTypedHeap p h → AreListed p (kinds_of h) }
{}
