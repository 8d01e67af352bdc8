// A program with an object.
ghost use Rattle.std.specs.Prelude.{◌≡◌};
ghost use Rattle.vg_core.specs.Session.{started, Started};
ghost use Rattle.vg_core.specs.Typing.{WellTyped};
ghost use Rattle.vg_sound.specs.Good.{HasTypedHeap};
ghost use Rattle.vg_packed.specs.Plain.{IsPlain, AreRanged};
ghost use Rattle.vg_packed.specs.IsOf.{IsOf};
ghost use Rattle.vg_packed.specs.IsPlaced.{IsPlaced};
ghost use Rattle.vg_start_examples.specs.Worked.{program, heap, layout, codes, firm};

/// There are a well typed program with an object in its heap, a layout of its live set, and a program to which it is packed: what the laws of
/// `vg_start` ask for can be had.
pub fn a_layout_is_there()
    ensures started { started program 1000 ≡ Started heap }
    ensures typed { WellTyped program }
    ensures plain { IsPlain program }
    ensures heap { HasTypedHeap program.tables heap }
    ensures ranged { AreRanged program.tables heap }
    ensures of_live { IsOf program heap layout codes firm }
    ensures placed { IsPlaced program layout codes firm }
{}
