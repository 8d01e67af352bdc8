// What the laws of templates ask of a layout, for the locations of procedures.
ghost use Rattle.std.specs.Prelude.{ℕ, ◌≡◌, ◌+◌, ◌*◌, ◌<◌, ◌≤◌, true, length, slice_index};
ghost use Rattle.vg_lin.specs.Program.{Procedure};
ghost use Rattle.vg_lin.specs.Sound.{IsSound};
ghost use Rattle.vg_templates.specs.Layouts.{IsLayout, outlives, frame_size};
ghost use Rattle.vg_templates.specs.Living.{lasts};
ghost use Rattle.vg_templates.specs.Calls.{HasParameters, sum_of};
ghost use Rattle.vg_templates.specs.Framed.{framed, live_in};

/// Laws of the layout of each procedure of linear code: it is a sound one, its parameters lie where they were pushed, or go from the registers in which they
/// arrive to their spots, and a local whose value is wanted behind a call lies where it outlives it.
pub fn frames_serve_templates()
    ensures layout { (p : Procedure) → IsSound p → IsLayout (framed p) }
    ensures parameters { (p : Procedure) → IsSound p → HasParameters (framed p) (live_in p 0) p.params }
    ensures outlives { (p : Procedure) → IsSound p → (k : ℕ) → k < length p.widths → lasts p.code k ≡ true
        → outlives ((framed p).spots k) (slice_index p.widths k) ≡ true }
{}

/// Laws of its bytes: a frame has at most those of its locals and four more, for the saved Y and the return address; for each register that outlives calls and
/// holds a byte of a local it has the byte that the procedure saved. So it has at most 1,012.
pub fn frames_are_counted()
    ensures bytes { (p : Procedure) → frame_size (framed p) ≤ sum_of p.widths + 4 }
    ensures few { (p : Procedure) → IsSound p → frame_size (framed p) ≤ 4 * length p.widths + 4 }
{}
