// How many values wait in the code of legal texts.
ghost use Rattle.std.specs.Prelude.{◌≡◌, ◌+◌, ℕ, None};
ghost use Rattle.vg_code_counts.specs.Counted.{Counted};
ghost use Rattle.vg_syntax.specs.Tree.{Node};
ghost use Rattle.vg_syntax.specs.Numbering.{count_nodes};
ghost use Rattle.vg_source.specs.Resolved.{Scope, Fresh, resolved};
ghost use Rattle.vg_source.specs.Program.{source_of};
ghost use Rattle.vg_rules.specs.Bodies.{Body, breach};
ghost use Rattle.vg_rules.specs.Legal.{Legal};
ghost use Rattle.vg_method_sizes.specs.Sizes.{sizes, methods_among};
ghost use Rattle.vg_source_counts.specs.Measures.{source_measures};
ghost use Rattle.vg_source_counts.specs.Forms.{Statements, HasForm, IsFormed};
ghost use Rattle.vg_source_counts.specs.Counts.{AreCounted};

/// The code of statements that break no rule takes and leaves its values in order, nothing waits where it begins and ends, and at most two
/// values more wait in it than there are nodes. The body is empty: its contract is a law of the definitions.
pub fn bodies_are_counted()
    ensures { (ds : Node) (k : Body) (body : Node) (ls : Scope) → breach ds k body Fresh ls ≡ None → HasForm Statements body
        → Counted source_measures (count_nodes body + 2) k.in_loop 0 (resolved ds k.owner body Fresh ls).does 0 0 }
{}

/// So it is with each method of a legal text's source program, number by number, where its nodes stand as the grammar has them. A tree whose
/// body is an expression may break no rule, and leaves a value.
pub fn methods_are_counted()
    ensures { (text : Node) → Legal text → IsFormed text → AreCounted (methods_among (source_of text).routines) (sizes text) }
{}
