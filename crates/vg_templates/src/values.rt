// The laws of values that go to locals, wait for calls, or go to devices.
ghost use Rattle.std.specs.Prelude.{ℕ, ◌≡◌, ◌+◌, ◌<◌, ◌≤◌, Bool, List, ◌∷◌, length, Some};
ghost use Rattle.vg_meaning.specs.declared.event.Event.TheVariants.{Write};
ghost use Rattle.vg_meaning.specs.Device.{IsDeviceAddress};
ghost use Rattle.vg_meaning.specs.Outside.{with_event};
ghost use Rattle.vg_lin.specs.declared.instr.Operand.{Operand};
ghost use Rattle.vg_lin.specs.Steps.{Frame};
ghost use Rattle.vg_lin.specs.State.{State, value, sets};
ghost use Rattle.vg_lin.specs.Values.{low};
ghost use Rattle.avr_view.specs.Run.{Run, Front};
ghost use Rattle.avr_view.specs.View.{View};
ghost use Rattle.vg_templates.specs.Layouts.{IsLayout};
ghost use Rattle.vg_templates.specs.Frames.{Places};
ghost use Rattle.vg_templates.specs.Pieces.{Takes};
ghost use Rattle.vg_templates.specs.Held.{Held, IsReady, IsSet};
ghost use Rattle.vg_templates.specs.Outcomes.{Lies, IsKept};
ghost use Rattle.vg_templates.specs.Plain.{copies, pushes_value, writes_device};

/// Laws of three templates. The code of a copy leads to the state in which the local has got the value; that of a value that waits, to the state in
/// which it waits, or it reaches below the floor, which it does only where so many bytes more are too many; and that of a write to a device register,
/// to where it is shown.
pub fn values_move()
    ensures copy { (e : Run) (i : Places) → ((m : ℕ) → IsLayout (i.layouts m)) → (m : ℕ) (frames : List (Frame State)) (live behind : ℕ → Bool)
        (s : State) (to : ℕ) (a : Operand) (x : ℕ) (v : View) → IsReady (i.layouts m) live a → IsSet (i.layouts m) live behind to
        → value a s ≡ Some x → Held i m live s frames v → Takes e ⊥ v (copies (i.layouts m) to a) (Lies i m behind (sets to x s) frames v.out) }
    ensures push { (e : Run) (i : Places) → ((m : ℕ) → IsLayout (i.layouts m)) → (m : ℕ) (frames : List (Frame State)) (live behind : ℕ → Bool)
        (s : State) (w : ℕ) (a : Operand) (x : ℕ) (v : View) → IsReady (i.layouts m) live a → IsKept live behind → w ≤ 4 → value a s ≡ Some x
        → Held i m live s frames v
        → Takes e (0x1100 < e.floor + length v.stack + w) v (pushes_value (i.layouts m) w a)
        (Lies i m behind (record s { waiting = record { width = w; value = low w x } ∷ s.waiting }) frames v.out) }
    ensures write { (e : Run) (i : Places) → ((m : ℕ) → IsLayout (i.layouts m)) → (m : ℕ) (frames : List (Frame State)) (live behind : ℕ → Bool)
        (s : State) (address : ℕ) (a : Operand) (x : ℕ) (v : View) → IsReady (i.layouts m) live a → IsKept live behind → IsDeviceAddress address
        → value a s ≡ Some x → Front e (with_event v.out (Write address (low 1 x))) → Held i m live s frames v
        → Takes e ⊥ v (writes_device (i.layouts m) address a) (Lies i m behind s frames (with_event v.out (Write address (low 1 x)))) }
{}
