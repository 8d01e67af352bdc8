// The laws of how many words the code takes that packed code becomes.
ghost use Rattle.std.specs.Prelude.{◌≡◌, ◌≤◌, ℕ, ◌+◌, List};
ghost use Rattle.vg_meaning.specs.Code.{Code};
ghost use Rattle.vg_firm.specs.declared.step.Step.{Step};
ghost use Rattle.vg_firm.specs.Program.{Procedure as FirmProcedure};
ghost use Rattle.vg_lin.specs.declared.instr.Operand.{Operand};
ghost use Rattle.vg_lin.specs.Program.{Procedure};
ghost use Rattle.vg_expand.specs.Code.{expanded};
ghost use Rattle.vg_flatten_shapes.specs.declared.layout.Layout.{Layout};
ghost use Rattle.vg_flatten_shapes.specs.declared.room.Room.{Room};
ghost use Rattle.vg_flatten_shapes.specs.Shapes.{Shape, empty};
ghost use Rattle.vg_flatten_shapes.specs.Blocks.{Block, open_code};
ghost use Rattle.vg_flatten_shapes.specs.Made.{Gives};
ghost use Rattle.vg_flatten_steps.specs.Steps.{stepped};
ghost use Rattle.vg_flatten_control.specs.Flat.{flat};
ghost use Rattle.vg_flatten.specs.Flattened.{IsFlat};
ghost use Rattle.vg_step_words.specs.Words.{list_words, grown_list, open_words, waiting_words};
ghost use Rattle.vg_step_words.specs.Steps.{step_words};
ghost use Rattle.vg_step_words.specs.Code.{is_on_object, code_words};
ghost use Rattle.vg_step_words.specs.Procedures.{procedure_words};

/// The code of a procedure whose arithmetic is expanded takes at most as many words as what stands for each of its instructions, where dispatches have
/// so many cases. The body is empty: its contract is a law of the definitions.
pub fn expansion_takes_few_words()
    ensures words { (cases : ℕ → ℕ) (first : ℕ) (m : Procedure) → list_words cases (expanded first m).code ≤ grown_list cases m.code }
{}

/// What a step becomes takes at most so many words, whatever the homes of the values that wait. The words with which a test that is left becomes a number
/// are among them. The body is empty: its contract is a law of the definitions.
pub fn steps_take_few_words()
    ensures words { (cases : ℕ → ℕ) (lay : Layout) (r : Room) (p : Step) (hs : List Operand) (at : ℕ) (b : Block) (s : Shape)
        → stepped lay r p hs ≡ Gives b s → open_words cases (open_code b at) + waiting_words s.truth ≤ step_words lay cases p }
{}

/// What code becomes takes at most so many words, where results have at most four bytes, with those of a test that waits before it; and those of a test
/// that is left are among them. The body is empty: its contract is a law of the definitions.
pub fn flat_code_takes_few_words()
    ensures words { (cases : ℕ → ℕ) (lay : Layout) (r : Room) (c : Code Step) (s t : Shape) (at : ℕ) (b : Block) → r.result ≤ 4
        → flat lay r c s ≡ Gives b t
        → open_words cases (open_code b at) + waiting_words t.truth ≤ waiting_words s.truth + code_words lay cases (is_on_object r) c }
{}

/// The code of a procedure that is flattened with a home for each value takes at most so many words when its arithmetic is expanded, where its result has at
/// most four bytes. The body is empty: its contract is a law of the definitions.
pub fn procedures_take_few_words()
    ensures words { (cases : ℕ → ℕ) (first : ℕ) (lay : Layout) (m : FirmProcedure) (p : Procedure) (f : IsFlat lay m p) → m.result ≤ 4
        → flat lay f.room m.body empty ≡ Gives f.block f.shape → list_words cases (expanded first p).code ≤ procedure_words lay cases m }
{}
