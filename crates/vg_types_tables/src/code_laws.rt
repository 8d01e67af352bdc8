// What holds of code.
ghost use Rattle.std.specs.Prelude.{◌≡◌, ℕ, Bool, List, [], ◌∷◌, ◌++◌};
ghost use Rattle.vg_meaning.specs.Code.{Code, Nothing, Then};
ghost use Rattle.vg_meaning.specs.Shapes.{Shapes, Fits};
ghost use Rattle.vg_tree.specs.Held.{text_at};
ghost use Rattle.vg_source.specs.Steps as source;
ghost use Rattle.vg_core.specs.declared.types.CoreType.{CoreType};
ghost use Rattle.vg_core.specs.declared.program.Owner.{Owner};
ghost use Rattle.vg_core.specs.declared.program.Tables.{Tables};
ghost use Rattle.vg_core.specs.declared.step.Step.{Step};
ghost use Rattle.vg_core.specs.declared.code.Code as held;
ghost use Rattle.vg_core.specs.HeldProgram.{code_of, code_row, code_chain};
ghost use Rattle.vg_core.specs.Naming as core;
ghost use Rattle.vg_core.specs.Naming.{named_code};
ghost use Rattle.vg_core.specs.Typing.{known};
ghost use Rattle.vg_types_tables.specs.declared.declared.Declared.{Declared};
ghost use Rattle.vg_types_tables.specs.declared.body.BodyKind.{BodyKind};
ghost use Rattle.vg_types_tables.specs.declared.judged.Head.{Head};
ghost use Rattle.vg_types_tables.specs.declared.locals.Locals.{Locals};
ghost use Rattle.vg_types_tables.specs.Views.{naming, code_view};
ghost use Rattle.vg_types_tables.specs.Promises.{Leads, Puts, Runs};
ghost use Rattle.vg_types_tables.specs.Codes.{in_front};

/// Code that is typed under some locals is typed under more.
pub fn more_locals()
    ensures fits { (p : Tables) (ts more : List CoreType) (o : Owner) (r : CoreType) (looped : Bool) (c : Code Step) (x y : List CoreType)
        → Fits (known p ts o r) looped c x y → Fits (known p (ts ++ more) o r) looped c x y }
    ensures leads { (p : Tables) (k : BodyKind) (old new : Locals) (more : List CoreType) (h g : Head) (c : Code Step)
        → new.declared ≡ old.declared ++ more → Leads p k old h c g → Leads p k new h c g }
    ensures puts { (p : Tables) (k : BodyKind) (old new : Locals) (more : List CoreType) (c : Code Step) (t : CoreType)
        → new.declared ≡ old.declared ++ more → Puts p k old c t → Puts p k new c t }
    ensures runs { (p : Tables) (k : BodyKind) (old new : Locals) (more : List CoreType) (c : Code Step)
        → new.declared ≡ old.declared ++ more → Runs p k old c → Runs p k new c }
{}

/// Rows and chains of typed code are typed.
pub fn typed_rows()
    ensures row { (p : Tables) (ts : List CoreType) (o : Owner) (r : CoreType) (looped : Bool) (cs : List held.Code) (c : held.Code)
        (x y z : List CoreType) → Fits (known p ts o r) looped (code_row cs) x y → Fits (known p ts o r) looped (code_of c) y z
        → Fits (known p ts o r) looped (code_row (cs ++ c ∷ [])) x z }
    ensures chain { (p : Tables) (ts : List CoreType) (o : Owner) (r : CoreType) (looped : Bool) (cs : List held.Code) (c : held.Code)
        (x y z : List CoreType) → Fits (known p ts o r) looped (code_chain cs) x y → Fits (known p ts o r) looped (code_of c) y z
        → Fits (known p ts o r) looped (code_chain (cs ++ c ∷ [])) x z }
{}

/// What rows and chains of code stand for while they are made, and when all of them is.
pub fn rows_made()
    ensures more { (texts : List (List ℕ)) (d : Declared) (cs : List held.Code) (c : held.Code) (rest : Code source.Step)
        → in_front texts d (cs ++ c ∷ []) rest ≡ in_front texts d cs (Then (code_view texts d c) rest) }
    ensures row { (texts : List (List ℕ)) (d : Declared) (cs : List held.Code)
        → in_front texts d cs Nothing ≡ named_code (naming texts d) d.tables (code_row cs) }
    ensures chain { (texts : List (List ℕ)) (d : Declared) (cs : List held.Code) (c : held.Code)
        → in_front texts d cs (code_view texts d c) ≡ named_code (naming texts d) d.tables (code_chain (cs ++ c ∷ [])) }
{}

/// The text of a name is one, by the words of the tree and by those of the typed program.
pub fn text_same()
    ensures { (texts : List (List ℕ)) (x : ℕ) → core.text_at texts x ≡ text_at texts x }
{}
