// The law of linked images.
ghost use Rattle.std.specs.Prelude.{◌≡◌, ◌+◌, ◌≤◌, true};
ghost use Rattle.avr_view.specs.Run.{Run};
ghost use Rattle.vg_templates.specs.Whole.{Links};
ghost use Rattle.vg_followed.specs.Stands.{Stands};
ghost use Rattle.vg_followed.specs.Runs.{Begins};
ghost use Rattle.vg_link.specs.declared.linked.Linked.{Linked};
ghost use Rattle.vg_link.specs.declared.unlinked.Unlinked.{Unlinked};
ghost use Rattle.vg_link.specs.Linking.{program_of, CanBeLinked, IsLinked};

/// A law of linked images. In the flash of a linked image the program stands as the machine needs it to do what the program does, and the run begins with its
/// start procedure, where interrupts are let in at the idle SLEEP and at the CLI behind it. The body is empty: its contract is a law of the definitions.
pub fn linked_images_begin()
    ensures { (u : Unlinked) (linked : Linked) → CanBeLinked u → IsLinked u linked → (e : Run) → e.flash ≡ linked.flash → e.static ≡ u.static_bytes
        → e.floor ≤ 0x1100 → e.lets_in (linked.idle + 1) ≡ true → e.lets_in (linked.idle + 2) ≡ true
        → (x : Links) × Stands e x (program_of u linked.codes) × Begins e x (program_of u linked.codes) }
{}
