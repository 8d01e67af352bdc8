// The top call.
ghost use Rattle.std.specs.Prelude.{◌≡◌, ◌↔◌, ◌≤◌, ◌⊎◌, ℕ, List, length, IfSome, Some, None};
ghost use Rattle.std.specs.Option.{option_map};
ghost use Rattle.vg_base.specs.Limits.{image_text_limit, text_limit};
ghost use Rattle.vg_base.specs.declared.place.Place.{Place};
ghost use Rattle.vg_io.specs.Count.{Rose};
ghost use Rattle.vg_io.specs.Piece.{AppendsAll, AppendsFront};
ghost use Rattle.vg_words.specs.Commands.{HasObjects, HasStack, HasSteps, command_of, words_in};
ghost use Rattle.vg_words.specs.Views.{command_in};
ghost use Rattle.vg_fetch.specs.Asking.{AsksAll, AsksFront, HasFailed, HasPassedLimit, gained, last_of};
ghost use Rattle.vg_fetch.specs.Told.{ForFile, ForFiles};
ghost use Rattle.vg_first_text.specs.declared.device_write.DeviceWrite.{DeviceWrite};
ghost use Rattle.vg_first_text.specs.FirstText.{IsFirst};
ghost use Rattle.vg_syntax.specs.Faults.{NoTreeIn, TooDeepIn};
ghost use Rattle.vg_syntax.specs.Tree.{Node};
ghost use Rattle.vg_source.specs.Program.{source_of};
ghost use Rattle.vg_source.specs.Session.{Started, session, started};
ghost use Rattle.vg_source.specs.Values.{Heap};
ghost use Rattle.vg_rules.specs.declared.what.What.{What};
ghost use Rattle.vg_faults.specs.Faults.{IsOfInit};
ghost use Rattle.vg_faults.specs.Judged.{IsLegal, RefusedIn};
ghost use Rattle.vg_faults.specs.Living.{AllocatesIn};
ghost use Rattle.vg_faults.specs.Fitting.{StaticFullIn, TableFullIn};
ghost use Rattle.vg_faults.specs.Room.{HasRoomFault, StackFullIn};
ghost use Rattle.vg_faults.specs.Starting.{FailsIn, StartsIn, init_steps};
ghost use Rattle.vg_faults.specs.declared.fault.Fault as fault;
ghost use Rattle.vg_build.specs.Answer.{HasFault, IsLarge, IsNotBuilt, IsOverStack, first_place};
ghost use Rattle.vg_layout.specs.Text.{layout_text};
ghost use Rattle.vg_gen.specs.Generated.{generated};
ghost use Rattle.vg_hex.specs.HexText.{hex_text};
ghost use Rattle.vg_hex.specs.HexImage.{HexImage, fault_in};
ghost use Rattle.vg_hex.specs.declared.fault.HexFault.{HexFault};
ghost use Rattle.vg_script.specs.Script.{IsScript, Lists, first_bad};
ghost use Rattle.avr_sim.specs.Run.{simulated, trace_lines};
ghost use Rattle.vg_sim.specs.Shown.{ForRun, lines_of};
ghost use Rattle.vg_commands.specs.Shown as of_run;
ghost use Rattle.vg_commands.specs.Shown.{ForSession};
ghost use Rattle.vg_commands.specs.Asked.{IsDeclaredIn, NoMemberIn};
ghost use Rattle.vg_commands.specs.Texts.{ForLines, ForText, ForTexts};
ghost use Rattle.vg_drive.specs.Answers.{AppendsBegun, AppendsFrontAndAll, AppendsFronts, ForImage, ForSecond};
ghost use Rattle.vg_commands.specs.Commands.{IsAnswerOf, OnBuild, OnLive, OnRun, OnSim, OnSource, OnTry, OnWhy, PutsNothing, requests_of};
ghost use Rattle.vg_status.specs.Lines.{fault_line};
ghost use Rattle.vg_commands.specs.Leaves.{FetchedBy, change};
ghost use Rattle.vg_drive.specs.Mirrors.{AnswerBy};
ghost use Rattle.vg_commands.specs.Endings.{status_of_end, status_of_ending};
ghost use Rattle.vg_status.specs.Statuses.{IsBeforePuts, IsDoneOrNoMemory, IsSettled, IsShown};
ghost use Rattle.vg_drive.specs.Trials.{ForTry, trial_of, try_lines};

use crate::build::run_build;
use crate::trial::run_try;
use std::alloc::Global;
use vg_commands::{run_session, run_sim, run_why};
use vg_io::{Shelf, Sink};
use vg_status::{Status, fault_line};
use vg_words::{Command, command_of};

/// Does what the words behind the program's name say, and answers how it went.
///
/// `build FILE` fetches FILE, which has at most 262,144 bytes, initialises its components in at most `--init-steps` ticks, puts the HEX text of its image
/// to `out` in one put, and then the layout to `note` in one put. The stack of the image has `--stack` bytes, or else all SRAM above the static area.
/// `run FILE SCRIPT` fetches such a text and one of at most 1,048,576 bytes, runs the first by the language's meaning on the second for at most `--steps`
/// ticks, and puts the lines of its trace and of its ending to `out`. `sim HEX SCRIPT` fetches two texts of at most 1,048,576 bytes each, runs the image of
/// the first on the second for at most `--steps` instructions, and puts the lines of its trace and of its ending to `out`. `why FILE MEMBER` fetches such a
/// text as `build`, and puts the lines that say why the member is live to `out` in one put. `try N` builds the generated text of N objects as `build` does
/// without an option, puts the HEX text of its image to `note` in one put, runs the image for at most 10,000,000 instructions, to which no read and no interrupt
/// comes, and puts a summary and the lines of its trace and of its ending to `out`. Behind an answer that is no success and no ending it tries one put of the
/// fault line to `note`.
pub fn run<S: Shelf, O: Sink, N: Sink>(
    alloc: Global,
    words: &[String],
    shelf: &mut S,
    out: &mut O,
    note: &mut N,
) -> Status
    // What the words mean, and which answers their command may have.
    ensures usage { result ≡ Status.Usage ↔ (command_of (words_in words.now) ≡ None) }
    ensures answers { IsAnswerOf (command_of (words_in words.now)) result }

    // What the shelf was asked for, and what it gave.
    ensures asked { AsksFront (S.asked shelf.old) (S.asked shelf.new) (requests_of (command_of (words_in words.now))) }
    ensures asked_all { IsSettled result → AsksAll (S.asked shelf.old) (S.asked shelf.new) (requests_of (command_of (words_in words.now))) }
    ensures read_fault { result ≡ Status.ReadFault → Rose (S.faults shelf.old) (S.faults shelf.new) }
    ensures read_failed { result ≡ Status.ReadFault → HasFailed (last_of (gained (S.asked shelf.old) (S.asked shelf.new))) }
    ensures too_long { result ≡ Status.TooLong ↔ HasPassedLimit (last_of (gained (S.asked shelf.old) (S.asked shelf.new))) }

    // `build`, `run` and `why`: which source texts are refused.
    ensures no_tree { IsSettled result → OnSource (command_of (words_in words.now)) (λ file clock. ForFile (S.told shelf.old) file (λ bytes.
        (place : Place) → (result ≡ Status.Refused (fault.Fault.NoTree place)) ↔ NoTreeIn bytes place)) }
    ensures too_deep { IsSettled result → OnSource (command_of (words_in words.now)) (λ file clock. ForFile (S.told shelf.old) file (λ bytes.
        (place : Place) → (result ≡ Status.Refused (fault.Fault.TooDeep place)) ↔ TooDeepIn bytes place)) }
    ensures too_many { IsSettled result → OnSource (command_of (words_in words.now)) (λ file clock. ForFile (S.told shelf.old) file (λ bytes.
        (what : What) (limit : ℕ) (place : Place) → (result ≡ Status.Refused (fault.Fault.TooMany what limit place))
        ↔ RefusedIn bytes (fault.Fault.TooMany what limit place))) }
    ensures broken { IsSettled result → OnSource (command_of (words_in words.now)) (λ file clock. ForFile (S.told shelf.old) file (λ bytes.
        (rule : ℕ) (place : Place) → (result ≡ Status.Refused (fault.Fault.Broken rule place)) ↔ RefusedIn bytes (fault.Fault.Broken rule place))) }
    ensures init { IsSettled result → OnSource (command_of (words_in words.now)) (λ file clock. ForFile (S.told shelf.old) file (λ bytes.
        (why : fault.Fault) → IsOfInit why → (result ≡ Status.Refused why) ↔ FailsIn bytes clock why)) }

    // `build` and `why`: which live methods would make something.
    ensures allocates { IsSettled result → OnLive (command_of (words_in words.now)) (λ file clock. ForFile (S.told shelf.old) file (λ bytes.
        (place : Place) (line : List ℕ) → (result ≡ Status.Refused (fault.Fault.Allocates place line)) ↔ AllocatesIn bytes clock place line)) }

    // `build`: what does not fit into RAM, whose tables do not fit into flash, and whose stack has no room in RAM or is too small.
    ensures static_full { IsSettled result → OnBuild (command_of (words_in words.now)) (λ file asked clock. ForFile (S.told shelf.old) file (λ bytes.
        (need : ℕ) → (result ≡ Status.Refused (fault.Fault.StaticFull need)) ↔ StaticFullIn bytes clock need)) }
    ensures table_full { IsSettled result → OnBuild (command_of (words_in words.now)) (λ file asked clock. ForFile (S.told shelf.old) file (λ bytes.
        (need : ℕ) → (result ≡ Status.Refused (fault.Fault.TableFull need)) ↔ TableFullIn bytes clock need)) }
    ensures stack_full { IsSettled result → OnBuild (command_of (words_in words.now)) (λ file asked clock. ForFile (S.told shelf.old) file (λ bytes.
        (need left : ℕ) → StackFullIn bytes asked clock need left → result ≡ Status.Refused (fault.Fault.StackFull need left))) }
    ensures stack_short { OnBuild (command_of (words_in words.now)) (λ file asked clock. ForFile (S.told shelf.old) file (λ bytes.
        (need left : ℕ) → result ≡ Status.Refused (fault.Fault.StackFull need left)
        → StackFullIn bytes asked clock need left ⊎ IsOverStack bytes asked clock need left)) }

    // `build`: which legal texts alone have too long a code or are not built, and which are built.
    ensures code_full { OnBuild (command_of (words_in words.now)) (λ file asked clock. ForFile (S.told shelf.old) file (λ bytes.
        (count : ℕ) → result ≡ Status.Refused (fault.Fault.CodeFull count) → IsNotBuilt bytes asked clock × (65536 ≤ count))) }
    ensures not_built { OnBuild (command_of (words_in words.now)) (λ file asked clock. ForFile (S.told shelf.old) file (λ bytes.
        (place : Place) → result ≡ Status.Refused (fault.Fault.NotBuilt place) → IsNotBuilt bytes asked clock)) }
    ensures not_built_large { OnBuild (command_of (words_in words.now)) (λ file asked clock. ForFile (S.told shelf.old) file (λ bytes.
        (place : Place) → result ≡ Status.Refused (fault.Fault.NotBuilt place) → IsLarge bytes clock)) }
    ensures not_built_first { (place : Place) → result ≡ Status.Refused (fault.Fault.NotBuilt place) → place ≡ first_place }
    ensures complete { OnBuild (command_of (words_in words.now)) (λ file asked clock. ForFile (S.told shelf.old) file (λ bytes.
        IfSome asked (λ stack. 4 ≤ stack) → (writes : List DeviceWrite) → IsFirst bytes writes → length bytes ≤ text_limit → IsDoneOrNoMemory result
        ⊎ (Rose (S.faults shelf.old) (S.faults shelf.new) ⊎ (Rose (O.faults out.old) (O.faults out.new) ⊎ Rose (N.faults note.old) (N.faults note.new))))) }

    // `build`: the image, whole on `out` with Done, and its layout on `note`.
    ensures headline { result ≡ Status.Done → OnBuild (command_of (words_in words.now)) (λ file asked clock.
        ForImage (S.told shelf.old) file asked clock (λ image layout.
        AppendsAll (O.told out.old) (O.told out.new) (hex_text image) × AppendsBegun (N.told note.old) (N.told note.new) (layout_text layout))) }
    ensures out_front { result ≡ Status.WriteFault → OnBuild (command_of (words_in words.now)) (λ file asked clock.
        ForImage (S.told shelf.old) file asked clock (λ image layout.
        AppendsFront (O.told out.old) (O.told out.new) (hex_text image)
        × (Rose (O.faults out.old) (O.faults out.new) ⊎ AppendsAll (O.told out.old) (O.told out.new) (hex_text image)))) }

    // `sim`: which texts are refused.
    ensures hex_refused { IsSettled result → OnSim (command_of (words_in words.now)) (λ hex script steps. ForFiles (S.told shelf.old) hex script (λ h s.
        (why : HexFault) → (result ≡ Status.HexRefused why) ↔ (fault_in h ≡ Some why))) }
    ensures script_refused { IsSettled result → OnSim (command_of (words_in words.now)) (λ hex script steps. ForFiles (S.told shelf.old) hex script (λ h s.
        (line : ℕ) → (result ≡ Status.ScriptRefused line) ↔ ((fault_in h ≡ None) × (first_bad s ≡ Some line)))) }

    // `sim`: the lines of the machine's trace and of its ending, whole on `out` with the answer of that ending.
    ensures shown { IsShown result → OnSim (command_of (words_in words.now)) (λ hex script steps. ForTexts (S.told shelf.old) hex script (λ h s.
        ForRun h s steps (λ m. (result ≡ status_of_ending m.ended) × AppendsAll (O.told out.old) (O.told out.new) (lines_of m)))) }
    ensures lines_front { result ≡ Status.WriteFault → OnSim (command_of (words_in words.now)) (λ hex script steps.
        ForTexts (S.told shelf.old) hex script (λ h s. ForRun h s steps (λ m. AppendsFront (O.told out.old) (O.told out.new) (lines_of m)))) }
    ensures sim_complete { OnSim (command_of (words_in words.now)) (λ hex script steps. ForFiles (S.told shelf.old) hex script (λ h s.
        (image : List ℕ) (lists : Lists) → HexImage h image → IsScript s lists → length h ≤ image_text_limit → length s ≤ image_text_limit
        → ((result ≡ status_of_ending (simulated image lists.reads lists.interrupts steps).ended) ⊎ (result ≡ Status.NoMemory))
        ⊎ (Rose (S.faults shelf.old) (S.faults shelf.new) ⊎ Rose (O.faults out.old) (O.faults out.new)))) }

    // `run`: the lines of the trace of the session of the text, and of its ending, whole on `out` with the answer of that ending.
    ensures played { IsShown result → OnRun (command_of (words_in words.now)) (λ file script steps. ForTexts (S.told shelf.old) file script (λ t s.
        ForSession t s steps (λ x. (option_map status_of_end x.ending ≡ Some result) × AppendsAll (O.told out.old) (O.told out.new) (of_run.lines_of x)))) }
    ensures played_front { result ≡ Status.WriteFault → OnRun (command_of (words_in words.now)) (λ file script steps.
        ForTexts (S.told shelf.old) file script (λ t s. ForSession t s steps (λ x. AppendsFront (O.told out.old) (O.told out.new) (of_run.lines_of x)))) }
    ensures played_trace { result ≡ Status.NoMemory → OnRun (command_of (words_in words.now)) (λ file script steps.
        (O.told out.new ≡ O.told out.old) ⊎ ForTexts (S.told shelf.old) file script (λ t s.
        ForSession t s steps (λ x. AppendsFront (O.told out.old) (O.told out.new) (trace_lines x.trace)))) }
    ensures run_script_refused { IsSettled result → OnRun (command_of (words_in words.now)) (λ file script steps. ForFiles (S.told shelf.old) file script (λ t s.
        (line : ℕ) → (result ≡ Status.ScriptRefused line) ↔ (StartsIn t init_steps × (first_bad s ≡ Some line)))) }
    ensures run_complete { OnRun (command_of (words_in words.now)) (λ file script steps. ForFiles (S.told shelf.old) file script (λ t s.
        (tree : Node) (heap : Heap) (lists : Lists) → IsLegal t tree → started (source_of tree) init_steps ≡ Started heap → IsScript s lists
        → length t ≤ text_limit → length s ≤ image_text_limit
        → ((option_map status_of_end (session (source_of tree) heap (Some 400) lists.reads lists.interrupts steps).ending ≡ Some result)
        ⊎ (result ≡ Status.NoMemory)) ⊎ (Rose (S.faults shelf.old) (S.faults shelf.new) ⊎ Rose (O.faults out.old) (O.faults out.new)))) }

    // `why`: which members are not declared, and the lines of the others, whole on `out` with Done.
    ensures no_member { IsSettled result → OnWhy (command_of (words_in words.now)) (λ file member. ForFile (S.told shelf.old) file (λ bytes.
        (result ≡ Status.Refused fault.Fault.NoMember) ↔ NoMemberIn bytes member)) }
    ensures why_lines { result ≡ Status.Done → OnWhy (command_of (words_in words.now)) (λ file member. ForText (S.told shelf.old) file (λ bytes.
        ForLines bytes member (λ lines. AppendsAll (O.told out.old) (O.told out.new) lines))) }
    ensures why_front { result ≡ Status.WriteFault → OnWhy (command_of (words_in words.now)) (λ file member. ForText (S.told shelf.old) file (λ bytes.
        ForLines bytes member (λ lines. AppendsFront (O.told out.old) (O.told out.new) lines))) }
    ensures why_complete { OnWhy (command_of (words_in words.now)) (λ file member. ForFile (S.told shelf.old) file (λ bytes.
        IsDeclaredIn bytes member → length bytes ≤ text_limit
        → IsDoneOrNoMemory result ⊎ (Rose (S.faults shelf.old) (S.faults shelf.new) ⊎ Rose (O.faults out.old) (O.faults out.new)))) }

    // `try`: which generated texts are refused, as by `build`.
    ensures try_refused { OnTry (command_of (words_in words.now)) (λ n. (why : fault.Fault) → result ≡ Status.Refused why
        → HasFault why (generated n) None init_steps) }
    ensures try_refuses { IsSettled result → OnTry (command_of (words_in words.now)) (λ n. (why : fault.Fault)
        → HasRoomFault why (generated n) None init_steps → result ≡ Status.Refused why) }

    // `try`: the HEX text of an image of the generated text, whole on `note`, and the summary and the lines of the trace and of the ending of a machine with this
    // image, whole on `out` with the answer of that ending.
    ensures tried { IsShown result → OnTry (command_of (words_in words.now)) (λ n. ForTry n (λ built. (result ≡ status_of_ending (trial_of built.image).ended)
        × AppendsAll (O.told out.old) (O.told out.new) (try_lines n built) × AppendsAll (N.told note.old) (N.told note.new) (hex_text built.image))) }
    ensures tried_front { result ≡ Status.WriteFault → OnTry (command_of (words_in words.now)) (λ n. ForTry n (λ built.
        AppendsFront (O.told out.old) (O.told out.new) (try_lines n built))) }

    // What may fail, and what nothing was put for.
    ensures write_fault { result ≡ Status.WriteFault → Rose (O.faults out.old) (O.faults out.new) ⊎ Rose (N.faults note.old) (N.faults note.new) }
    ensures out_none { PutsNothing (command_of (words_in words.now)) result → O.told out.new ≡ O.told out.old }

    // The second text of the command and the fault line, which are whole where the count of `note` did not rise.
    ensures note_second { IsShown result → ForSecond (command_of (words_in words.now)) (S.told shelf.old) (λ second.
        AppendsAll (N.told note.old) (N.told note.new) second) }
    ensures note_fronts { result ≡ Status.WriteFault → ForSecond (command_of (words_in words.now)) (S.told shelf.old) (λ second.
        AppendsFronts (N.told note.old) (N.told note.new) second (fault_line result)) }
    ensures note_line_last { result ≡ Status.WriteFault → Rose (N.faults note.old) (N.faults note.new)
        ⊎ ForSecond (command_of (words_in words.now)) (S.told shelf.old) (λ second.
        AppendsFrontAndAll (N.told note.old) (N.told note.new) second (fault_line result)) }
    ensures note_line_front { IsBeforePuts result → AppendsFront (N.told note.old) (N.told note.new) (fault_line result) }
    ensures note_line { IsBeforePuts result
        → Rose (N.faults note.old) (N.faults note.new) ⊎ AppendsAll (N.told note.old) (N.told note.new) (fault_line result) }
{
    let status = answer(alloc, words, shelf, out, note);
    put_fault_line(&status, note);
    status
}

// The answer, before its fault line is put.
fn answer<S: Shelf, O: Sink, N: Sink>(
    alloc: Global,
    words: &[String],
    shelf: &mut S,
    out: &mut O,
    note: &mut N,
) -> Status
    ensures fetched { FetchedBy result (S.asked shelf.old) (S.asked shelf.new) (requests_of (command_of (words_in words.now))) }
    ensures read { result ≡ Status.ReadFault → Rose (S.faults shelf.old) (S.faults shelf.new) }
    ensures holds { AnswerBy (command_of (words_in words.now)) result (S.told shelf.old)
        (change (O.told out.old) (O.told out.new) (O.faults out.old) (O.faults out.new))
        (change (N.told note.old) (N.told note.new) (N.faults note.old) (N.faults note.new)) }
    ensures later { N.faults note.old ≤ N.faults note.new }
{
    match command_of(words) {
        None => Status::Usage,
        Some(command) => obey(alloc, command, shelf, out, note),
    }
}

// The answer to a command.
fn obey<S: Shelf, O: Sink, N: Sink>(
    alloc: Global,
    command: Command<'_>,
    shelf: &mut S,
    out: &mut O,
    note: &mut N,
) -> Status
    requires steps { HasSteps (command_in command) }
    requires stack { HasStack (command_in command) }
    requires objects { HasObjects (command_in command) }
    ensures fetched { FetchedBy result (S.asked shelf.old) (S.asked shelf.new) (requests_of (Some (command_in command.entry))) }
    ensures read { result ≡ Status.ReadFault → Rose (S.faults shelf.old) (S.faults shelf.new) }
    ensures holds { AnswerBy (Some (command_in command.entry)) result (S.told shelf.old)
        (change (O.told out.old) (O.told out.new) (O.faults out.old) (O.faults out.new))
        (change (N.told note.old) (N.told note.new) (N.faults note.old) (N.faults note.new)) }
    ensures later { N.faults note.old ≤ N.faults note.new }
{
    match command {
        Command::Build {
            file,
            stack,
            init_steps,
        } => run_build(alloc, file, stack, init_steps, shelf, out, note),
        Command::Run {
            file,
            script,
            steps,
        } => run_session(alloc, file, script, steps, shelf, out),
        Command::Sim { hex, script, steps } => run_sim(alloc, hex, script, steps, shelf, out),
        Command::Why { file, member } => run_why(alloc, file, member, shelf, out),
        Command::Try { objects } => run_try(alloc, objects, out, note),
    }
}

// One put of the fault line, of which an answer behind all puts has none. What becomes of it changes nothing.
fn put_fault_line<N: Sink>(status: &Status, note: &mut N)
    ensures none { IsShown status.now → N.told note.new ≡ N.told note.old }
    ensures front { AppendsFront (N.told note.old) (N.told note.new) (fault_line status.now) }
    ensures whole { Rose (N.faults note.old) (N.faults note.new) ⊎ AppendsAll (N.told note.old) (N.told note.new) (fault_line status.now) }
    ensures later { N.faults note.old ≤ N.faults note.new }
{
    match status {
        Status::Done
        | Status::Stopped(_)
        | Status::Wants(_)
        | Status::Budget
        | Status::Depth
        | Status::BadInstruction { .. } => {}
        _ => put_line(fault_line(status).as_bytes(), note),
    }
}

// One put of a line. What becomes of it changes nothing.
fn put_line<N: Sink>(line: &[u8], note: &mut N)
    ensures front { AppendsFront (N.told note.old) (N.told note.new) line.now }
    ensures whole { Rose (N.faults note.old) (N.faults note.new) ⊎ AppendsAll (N.told note.old) (N.told note.new) line.now }
    ensures later { N.faults note.old ≤ N.faults note.new }
{
    let _ = note.put(line);
}
