// The laws of what flattened procedures take of the stack, and of what they call.
ghost use Rattle.std.specs.Prelude.{ℕ, suc, ◌≡◌, ◌≤◌, ◌<◌, ◌+◌, ◌-◌, ◌*◌, Bool, List, [], ◌++◌, length, replicate, Option, Some, slice_get};
ghost use Rattle.std.specs.List.{AllByRecursion};
ghost use Rattle.vg_expand.specs.Code.{expanded};
ghost use Rattle.vg_finding.specs.Finders.{code_found, with_finders};
ghost use Rattle.vg_firm.specs.Program.{Procedure as FirmProcedure};
ghost use Rattle.vg_flat_frames.specs.Methods.{CallsBefore};
ghost use Rattle.vg_flatten.specs.Flattened.{all_widths, own_widths, start_of, temps_for, IsFlat, IsFlatFrom, IsPushed, IsPushedFrom};
ghost use Rattle.vg_flatten_control.specs.Flat.{flat};
ghost use Rattle.vg_flatten_shapes.specs.Made.{Gives};
ghost use Rattle.vg_flatten_shapes.specs.Shapes.{empty};
ghost use Rattle.vg_flatten_shapes.specs.declared.layout.Layout.{Layout};
ghost use Rattle.vg_frame_costs.specs.Bytes.{bytes_of, most_kept, opening_bytes, procedure_bytes, pushed_bytes};
ghost use Rattle.vg_frame_costs.specs.Fitting.{IsOfMethod};
ghost use Rattle.vg_lin.specs.Program.{Procedure};
ghost use Rattle.vg_lin.specs.declared.instr.Instr.{Instr};

/// A law of all procedures of linear code. When one begins, it takes with its parameters that were pushed at most four bytes beside those of its locals: its
/// return address and the frame pointer, since each local lies in registers or in a slot, or was pushed. The body is empty: its contract is a law of the
/// definitions.
pub fn openings_take_few_bytes()
    ensures { (p : Procedure) → opening_bytes p + pushed_bytes p ≤ 4 + bytes_of p.widths }
{}

/// A law of the locals of flattened procedures. Where those of a packed procedure have at most four bytes each, those of the flattened one take with so many
/// temporaries at most four bytes each, and two more for a receiver. The body is empty: its contract is a law of the definitions.
pub fn flattened_locals_take_few_bytes()
    ensures { (m : FirmProcedure) (temps : ℕ) → ((i w : ℕ) → slice_get m.widths i ≡ Some w → w ≤ 4)
        → bytes_of (all_widths m ++ replicate temps 4) ≤ 2 + 4 * (length m.widths + temps) }
{}

/// Laws of flattened code, its arithmetic expanded. Where each value that waits has a home of its own, nothing is kept at any instruction of it, since
/// arguments are pushed in a row before the call that takes them all. Where the oldest values that wait are pushed, so many of them at most, no more than four
/// bytes of each are kept. In the procedure with which a run begins nothing is kept. The body is empty: its contract is a law of the definitions.
pub fn flattened_code_keeps_nothing()
    ensures homes { (first : ℕ) (lay : Layout) (m : FirmProcedure) (p : Procedure) (f : IsFlat lay m p)
        → flat lay f.room m.body empty ≡ Gives f.block f.shape → most_kept [] (expanded first p).code ≡ 0 }
    ensures pushed { (first : ℕ) (lay : Layout) (m : FirmProcedure) (p : Procedure) (f : IsFlat lay m p) (u : IsPushed lay m f.room f.block f.shape)
        → most_kept [] (expanded first p).code ≤ 4 * u.pushes }
    ensures start { (first main : ℕ) (receives : Bool) → most_kept [] (expanded first (start_of main receives)).code ≡ 0 }
{}

/// A law of all code: as much is kept in it with calls of finders in place of look-ups. The body is empty: its contract is a law of the definitions.
pub fn calls_of_finders_keep_as_much()
    ensures { (numbers : List (Option ℕ)) (waits : List ℕ) (is : List Instr) → most_kept waits (code_found numbers is) ≡ most_kept waits is }
{}

/// Laws of flattened procedures, their arithmetic expanded. One takes at most four bytes of the stack for each of its locals and temporaries, and six more;
/// where the oldest values that wait are pushed, four bytes besides for each that may be pushed at one time. Where homes do from some number of temporaries
/// on, it takes no more than with that number. Where some number of values is above the room for temporaries, and it does to push as many as are above that
/// room, or more, it takes no more than with that number of temporaries. Both hold as well with calls of finders in place of look-ups. The body is empty: its
/// contract is a law of the definitions.
pub fn flattened_procedures_take_few_bytes()
    ensures homes { (first : ℕ) (lay : Layout) (m : FirmProcedure) (p : Procedure) (f : IsFlat lay m p)
        → flat lay f.room m.body empty ≡ Gives f.block f.shape → ((i w : ℕ) → slice_get m.widths i ≡ Some w → w ≤ 4)
        → procedure_bytes (expanded first p) ≤ 6 + 4 * (length m.widths + f.room.temps) }
    ensures pushed { (first : ℕ) (lay : Layout) (m : FirmProcedure) (p : Procedure) (f : IsFlat lay m p) (u : IsPushed lay m f.room f.block f.shape)
        → ((i w : ℕ) → slice_get m.widths i ≡ Some w → w ≤ 4)
        → procedure_bytes (expanded first p) ≤ 6 + 4 * (length m.widths + f.room.temps + u.pushes) }
    ensures fewest { (first : ℕ) (lay : Layout) (m : FirmProcedure) (p : Procedure) (most : ℕ) → IsFlat lay m p → IsFlatFrom lay m most
        → ((i w : ℕ) → slice_get m.widths i ≡ Some w → w ≤ 4) → procedure_bytes (expanded first p) ≤ 6 + 4 * (length m.widths + most) }
    ensures least { (first : ℕ) (lay : Layout) (m : FirmProcedure) (p : Procedure) (most : ℕ) → IsFlat lay m p
        → temps_for (length (own_widths m)) < most → IsPushedFrom lay m (most - temps_for (length (own_widths m)))
        → ((i w : ℕ) → slice_get m.widths i ≡ Some w → w ≤ 4) → procedure_bytes (expanded first p) ≤ 6 + 4 * (length m.widths + most) }
    ensures fewest_found { (numbers : List (Option ℕ)) (first : ℕ) (lay : Layout) (m : FirmProcedure) (p : Procedure) (most : ℕ) → IsFlat lay m p
        → IsFlatFrom lay m most → ((i w : ℕ) → slice_get m.widths i ≡ Some w → w ≤ 4)
        → procedure_bytes (with_finders numbers (expanded first p)) ≤ 6 + 4 * (length m.widths + most) }
    ensures least_found { (numbers : List (Option ℕ)) (first : ℕ) (lay : Layout) (m : FirmProcedure) (p : Procedure) (most : ℕ) → IsFlat lay m p
        → temps_for (length (own_widths m)) < most → IsPushedFrom lay m (most - temps_for (length (own_widths m)))
        → ((i w : ℕ) → slice_get m.widths i ≡ Some w → w ≤ 4)
        → procedure_bytes (with_finders numbers (expanded first p)) ≤ 6 + 4 * (length m.widths + most) }
{}

/// A law of flattened methods. Where packed code does not idle and calls procedures before the start alone, the flattened code, its arithmetic expanded, is
/// that of a method: it does not idle, and does not call the start. The routines have the numbers behind the start. The body is empty: its contract is a law of
/// the definitions.
pub fn flattened_methods_stay_methods()
    ensures { (start : ℕ) (lay : Layout) (m : FirmProcedure) (p : Procedure) → IsFlat lay m p → CallsBefore start m.body
        → AllByRecursion (IsOfMethod start) (expanded (suc start) p).code }
{}
