// The laws of an image.
ghost use Rattle.std.specs.Prelude.{ℕ, ◌≡◌, ◌+◌, ◌*◌, ◌<◌, List, ◌++◌, length, Some};
ghost use Rattle.std.specs.List.{AllByRecursion};
ghost use Rattle.avr_instr.specs.declared.instr.Instr.TheVariants.{Jmp};
ghost use Rattle.avr_instr.specs.Spelled.{InRange};
ghost use Rattle.avr_isa.specs.Standing.{StandsAt, AllStandAt};
ghost use Rattle.vg_templates.specs.Startup.{bytes_from};
ghost use Rattle.vg_image.specs.Image.{Parts, slot_code, first_table, code_start, flash_of, words_of};

/// Laws of an image whose code and stubs are within 65,535 words, and whose instructions have operands in range. Reset jumps to the code; each slot stands at
/// the word address that is twice its vector's number; a piece of the tables is read where it stands; the code stands at its start, so that each piece of it
/// stands as many words further as those before it take; and the flash has two bytes for each word.
pub fn images_stand()
    ensures jump { (p : Parts) → ((k at : ℕ) → p.slots k ≡ Some at → at < 65536) → AllByRecursion InRange p.code → words_of p < 65536
        → StandsAt (flash_of p) 0 (Jmp (code_start p.tables)) }
    ensures slots { (p : Parts) → ((k at : ℕ) → p.slots k ≡ Some at → at < 65536) → AllByRecursion InRange p.code → words_of p < 65536
        → (k : ℕ) → 0 < k → k < 35 → AllStandAt (flash_of p) (2 * k) (slot_code (p.slots k)) }
    ensures tables { (p : Parts) → ((k at : ℕ) → p.slots k ≡ Some at → at < 65536) → AllByRecursion InRange p.code → words_of p < 65536
        → (front piece rest : List ℕ) → p.tables ≡ front ++ (piece ++ rest)
        → bytes_from (flash_of p) (first_table + length front) (length piece) ≡ piece }
    ensures code { (p : Parts) → ((k at : ℕ) → p.slots k ≡ Some at → at < 65536) → AllByRecursion InRange p.code → words_of p < 65536
        → AllStandAt (flash_of p) (code_start p.tables) p.code }
    ensures size { (p : Parts) → ((k at : ℕ) → p.slots k ≡ Some at → at < 65536) → AllByRecursion InRange p.code → words_of p < 65536
        → length (flash_of p) ≡ 2 * words_of p }
{}
