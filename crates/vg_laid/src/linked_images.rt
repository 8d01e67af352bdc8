// The law of linked images.
ghost use Rattle.std.specs.Prelude.{ℕ, ◌≡◌, ◌+◌, ◌<◌, true, Some};
ghost use Rattle.std.specs.List.{AllByRecursion};
ghost use Rattle.avr_instr.specs.Spelled.{InRange};
ghost use Rattle.avr_view.specs.Run.{Run};
ghost use Rattle.vg_lin.specs.Program.{Program};
ghost use Rattle.vg_templates.specs.Whole.{Links};
ghost use Rattle.vg_followed.specs.Stands.{Stands};
ghost use Rattle.vg_image.specs.Image.{Parts, flash_of, words_of};
ghost use Rattle.vg_laid.specs.Images.{ProgramLinked};

/// A law of linked images. Where a program is linked in the parts of an image of fewer than 65,536 words, whose instructions have operands in range, the
/// program stands in its flash as the machine needs it to do what the program does, where interrupts are let in at the idle SLEEP and at the CLI behind it.
/// The body is empty: its contract is a law of the definitions.
pub fn linked_images_stand()
    ensures { (e : Run) (x : Links) (p : Program) (parts : Parts) → e.flash ≡ flash_of parts → ((k at : ℕ) → parts.slots k ≡ Some at → at < 65536)
        → AllByRecursion InRange parts.code → words_of parts < 65536 → ProgramLinked x p parts → e.lets_in (x.idle + 1) ≡ true
        → e.lets_in (x.idle + 2) ≡ true → Stands e x p }
{}
