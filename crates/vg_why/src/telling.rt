// From the bytes of a source text and the name of a member to why it is live.
ghost use Rattle.std.specs.Prelude.{◌≡◌, ◌↔◌, ◌≤◌, ◌⊎◌, ℕ, List, length, Some, Err, IfErr, IfOk, IsOk};
ghost use Rattle.vg_base.specs.Limits.{text_limit};
ghost use Rattle.vg_base.specs.declared.place.Place.{Place};
ghost use Rattle.vg_syntax.specs.Faults.{NoTreeIn, TooDeepIn};
ghost use Rattle.vg_rules.specs.declared.what.What.{What};
ghost use Rattle.vg_faults.specs.Faults.{IsOfInit};
ghost use Rattle.vg_faults.specs.Judged.{RefusedIn};
ghost use Rattle.vg_faults.specs.Starting.{FailsIn, init_steps};
ghost use Rattle.vg_faults.specs.Living.{AllocatesIn};
ghost use Rattle.vg_faults.specs.declared.fault.Fault as fault;
ghost use Rattle.vg_core.specs.HeldProgram.{program_at};
ghost use Rattle.vg_core.specs.Naming.{naming_of};
ghost use Rattle.vg_core.specs.Typing.{WellTyped};
ghost use Rattle.vg_renamed.specs.NamesTell.{NamesTell};
ghost use Rattle.vg_report.specs.Chains.{Falls};
ghost use Rattle.vg_why.specs.Asked.{IsDeclaredIn, NoMemberIn, WhyIn};
ghost use Rattle.vg_why.specs.Answer.{Answers, IsCause, IsSettled, fault_in};
ghost use Rattle.vg_why.specs.Mirrors.{Tells};

use std::alloc::Global;
use vg_alive::{Alive, find_live};
use vg_base::{Refusal, Row};
use vg_faults::{Fault, INIT_STEPS};
use vg_lookup::find_member;
use vg_report::why_text;

/// Why a member of a source text of at most 262,144 bytes is live: the lines of a chain of reasons, or the one line that it is dead. The member is a method or a field,
/// written as the name of the class or component that declares it, a point, and its own. The text is initialised in at most 1,000,000 ticks.
pub fn why_lines(alloc: Global, text: &[u8], member: &str) -> Result<Row<u8>, Refusal<Fault>>
    requires { length text.now ≤ text_limit }

    // The lines, or why there are none.
    ensures lines { IfOk result (WhyIn text.now member.now) }
    ensures refused { IfErr result (λ why. IsCause why text.now member.now) }

    // Exactly which texts are refused, and which members.
    ensures no_tree { IsSettled result → (place : Place) → (fault_in result ≡ Some (fault.Fault.NoTree place)) ↔ NoTreeIn text.now place }
    ensures too_deep { IsSettled result → (place : Place) → (fault_in result ≡ Some (fault.Fault.TooDeep place)) ↔ TooDeepIn text.now place }
    ensures too_many { IsSettled result → (what : What) (limit : ℕ) (place : Place)
        → (fault_in result ≡ Some (fault.Fault.TooMany what limit place)) ↔ RefusedIn text.now (fault.Fault.TooMany what limit place) }
    ensures broken { IsSettled result → (rule : ℕ) (place : Place)
        → (fault_in result ≡ Some (fault.Fault.Broken rule place)) ↔ RefusedIn text.now (fault.Fault.Broken rule place) }
    ensures init { IsSettled result → (why : fault.Fault) → IsOfInit why → (fault_in result ≡ Some why) ↔ FailsIn text.now init_steps why }
    ensures allocates { IsSettled result → (place : Place) (line : List ℕ)
        → (fault_in result ≡ Some (fault.Fault.Allocates place line)) ↔ AllocatesIn text.now init_steps place line }
    ensures no_member { IsSettled result → (fault_in result ≡ Some fault.Fault.NoMember) ↔ NoMemberIn text.now member.now }
    ensures complete { IsDeclaredIn text.now member.now → IsOk result ⊎ (result ≡ Err Refusal.NoMemory) }
{
    answer_to(alloc, text, member)
}

// The same, said case by case.
#[tactic(auto, using(crate::proofs::Faults::lives_by))]
fn answer_to(alloc: Global, text: &[u8], member: &str) -> Result<Row<u8>, Refusal<Fault>>
    requires { length text.now ≤ text_limit }
    ensures { Answers text.now member.now result }
{
    match find_live(alloc, text, INIT_STEPS) {
        Ok(alive) => told(alloc, &alive, member),
        Err(refusal) => Err(refusal),
    }
}

// Why a member of what starts is live.
fn told(alloc: Global, alive: &Alive, word: &str) -> Result<Row<u8>, Refusal<Fault>>
    requires names { NamesTell (naming_of alive.now.start.names alive.now.start.program.tables) (program_at alive.now.start.program) }
    requires typed { WellTyped (program_at alive.now.start.program) }
    requires ranks { Falls alive.now.live }
    ensures { Tells alive.now word.now result }
{
    let start = &alive.start;
    match find_member(&start.names, &start.program, word) {
        None => Err(Refusal::Fault(Fault::NoMember)),
        Some(member) => Ok(why_text(alloc, &alive.live, member, &start.program, &start.names)?),
    }
}
