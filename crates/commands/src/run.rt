//! The top call, from the words of the command line to the files and the line that it leaves.

ghost use Rattle.std.specs.Prelude.{◌≡◌, ◌≢◌, ◌⊎◌, ◌++◌, ◌↔◌, ℕ, List, Option, None, Err, IsTrue};
ghost use Rattle.commands.specs.Prelude.{asked, Causes, Command as Asked, CommandCauses, Counts, counts, Ends, EndsAnyhow, Files, IsAnswer, IsAnswered, KeepsDeskReads, KeepsDeskWrites, KeepsSource, Leaves, LeavesAtFailedRead, LineEnds, MayRun, NothingFailed, Outside, outside, PrintsPrefix, ReadsInput, Rose, Takes, Taking, taking, told};

use command_carry::executing::execute;
use command_carry::repairing::repair;
use command_checkparts::checking_parts::checkparts;
use command_decide::checking::check;
use command_decide::planning::plan;
use command_demo::demonstrating::demo;
use command_explain::explaining::explain;
use command_frame::fault::{Ending, Fault};
use command_frame::status::Status;
use command_make::generating::generate;
use command_make::scripting::script;
use command_parts::cutting::cut;
use command_parts::planning_parts::parts;
use command_report::picturing::picture;
use command_report::replaying::replay;
use command_report::showing::show;
use command_words::words::{Command, read_words};
use plan_io::{Desk, OutFault, Sink, Source, write_text};
use solver::Solver;
use std::alloc::Global;

/// Does what the words ask for, but for the last line where one is still to be printed.
#[tactic(auto, using(crate::proofs::Rows::rows, crate::proofs::Sources::no_command_takes, crate::proofs::Sources::demo_takes, crate::proofs::Printing::prints_nothing))]
fn answer<D: Desk, I: Source, O: Sink, S: Solver>(
    alloc: Global,
    words: &[String],
    desk: &mut D,
    input: &mut I,
    out: &mut O,
    solver: &S,
) -> Result<Ending, Fault>
    requires names { MayRun D.reads D.writes (asked words.now) }
    ensures ends { let source = told I.tells (I.rest input.old) in
        let before = outside (D.files desk.old) (O.written out.old) in
        let after = outside (D.files desk.new) (O.written out.new) in
        IsTrue D.tells → IsTrue O.tells
        → Ends (IsAnswer (asked words.now) source before) after result }
    ensures left { IsTrue D.tells → Leaves (asked words.now) (D.files desk.old) (D.files desk.new) }
    ensures failed_read { IsTrue D.tells → result ≡ Err Fault.ReadFault
        → LeavesAtFailedRead (asked words.now) (D.files desk.old) (D.files desk.new) }
    ensures printed { let source = told I.tells (I.rest input.old) in
        let before = outside (D.files desk.old) (O.written out.old) in
        let after = outside (D.files desk.new) (O.written out.new) in
        IsTrue D.tells → IsTrue O.tells → PrintsPrefix (asked words.now) source before after }
    ensures takes { let taking = taking (I.rest input.old) (I.rest input.new)
        (I.faults input.old) (I.faults input.new) in
        let before = outside (D.files desk.old) (O.written out.old) in
        let after = outside (D.files desk.new) (O.written out.new) in
        IsTrue D.tells → IsTrue I.tells → IsTrue O.tells
        → EndsAnyhow (Takes (asked words.now) taking before) after result }
    ensures source { KeepsSource D.tells (D.files desk.old) (asked words.now) input.old input.new }
    ensures causes { let before = counts (D.read_faults desk.old) (I.faults input.old)
        (D.write_faults desk.old) (O.faults out.old) in
        let after = counts (D.read_faults desk.new) (I.faults input.new)
        (D.write_faults desk.new) (O.faults out.new) in
        CommandCauses before after result }
    ensures desk_writes { let command = asked words.now in
        KeepsDeskWrites command (D.write_faults desk.old) (D.write_faults desk.new) }
    ensures desk_reads { let command = asked words.now in
        KeepsDeskReads command (D.read_faults desk.old) (D.read_faults desk.new) }
    ensures reads { result ≡ Err Fault.ReadFault → ReadsInput (asked words.now) }
    ensures words { (asked words.now ≡ None) ↔ (result ≡ Err Fault.Words) }
{
    match read_words(words) {
        Some(
            Command::Plan {
                instance,
                plan_file,
                certificate,
                budget,
            },
        ) => plan(
            alloc,
            desk,
            solver,
            instance,
            plan_file,
            certificate,
            budget,
        ),
        Some(
            Command::Check {
                instance,
                plan_file,
                certificate,
                strict,
            },
        ) => check(
            alloc,
            desk,
            solver,
            instance,
            plan_file,
            certificate,
            strict,
        ),
        Some(
            Command::Replay {
                instance,
                plan_file,
            },
        ) => replay(alloc, desk, out, instance, plan_file),
        Some(
            Command::Show {
                instance,
                plan_file,
            },
        ) => show(alloc, desk, out, instance, plan_file),
        Some(
            Command::Picture {
                instance,
                plan_file,
                picture_file,
            },
        ) => picture(alloc, desk, instance, plan_file, picture_file),
        Some(
            Command::Script {
                instance,
                script_file,
                out_file,
            },
        ) => script(alloc, desk, instance, script_file, out_file),
        Some(
            Command::Execute {
                instance,
                plan_file,
            },
        ) => execute(alloc, desk, input, out, instance, plan_file),
        Some(
            Command::Repair {
                instance,
                plan_file,
                new_instance,
                new_plan,
            },
        ) => repair(
            alloc,
            desk,
            input,
            instance,
            plan_file,
            new_instance,
            new_plan,
        ),
        Some(
            Command::Explain {
                instance,
                core,
                certificate,
                budget,
            },
        ) => explain(alloc, desk, solver, instance, core, certificate, budget),
        Some(
            Command::Cut {
                instance,
                groups_file,
                number,
                part_file,
            },
        ) => cut(alloc, desk, instance, groups_file, number, part_file),
        Some(
            Command::Parts {
                instance,
                groups_file,
                plan_file,
                certificate,
                budget,
            },
        ) => parts(
            alloc,
            desk,
            solver,
            instance,
            groups_file,
            plan_file,
            certificate,
            budget,
        ),
        Some(
            Command::CheckParts {
                instance,
                groups_file,
                plan_file,
                certificate,
            },
        ) => checkparts(
            alloc,
            desk,
            solver,
            instance,
            groups_file,
            plan_file,
            certificate,
        ),
        Some(Command::Generate { seed, instance }) => generate(alloc, desk, seed, instance),
        Some(Command::Demo { seed }) => demo(alloc, desk, solver, seed),
        None => Err(Fault::Words),
    }
}

/// Prints the last line, and gives the status that was to be said, or that of a refused write.
#[tactic(auto, using(crate::proofs::Printing::prints_last))]
fn say<O: Sink>(out: &mut O, line: &str, said: Status) -> Status
    requires { IsAnswered said }
    ensures status { (result ≡ said) ⊎ (result ≡ Status.WriteFault) ⊎ (result ≡ Status.Memory) }
    ensures written { IsTrue O.tells → result ≡ said
        → O.written out.new ≡ O.written out.old ++ line.now }
    ensures takes { IsTrue O.tells
        → (command : Option Asked) (taking : Taking) (before : Outside) (after : Files)
        → LineEnds (Takes command taking before) (outside after (O.written out.old)) line.now said
        → Takes command taking before (outside after (O.written out.new)) result }
    ensures prefix { IsTrue O.tells
        → (command : Option Asked) (source : Option (List ℕ)) (before : Outside) (after : Files)
        → PrintsPrefix command source before (outside after (O.written out.old))
        → IsAnswer command source before (outside after (O.written out.old ++ line.now)) said
        → PrintsPrefix command source before (outside after (O.written out.new)) }
    ensures cause { result ≡ Status.WriteFault → Rose (O.faults out.old) (O.faults out.new) }
    ensures kept { (O.faults out.new ≡ O.faults out.old) ⊎ (result ≡ Status.WriteFault) }
{
    match write_text(out, line.as_bytes()) {
        Ok(()) => said,
        Err(OutFault::Failed) => Status::WriteFault,
        Err(OutFault::Memory) => Status::Memory,
    }
}

/// Prints the last line of a command, if it has one, and gives its status or that of a refused write.
#[tactic(auto, using(crate::proofs::Causing::causes_of_line, crate::proofs::Causing::causes_as_they_were), unfolding(command_frame::specs::Endings::Ends, command_frame::specs::Endings::EndsAnyhow))]
fn finish<O: Sink>(out: &mut O, ended: Result<Ending, Fault>) -> Status
    ensures answer { IsTrue O.tells → IsAnswered result
        → (command : Option Asked) (source : Option (List ℕ)) (before : Outside) (after : Files)
        → Ends (IsAnswer command source before) (outside after (O.written out.old)) ended
        → IsAnswer command source before (outside after (O.written out.new)) result }
    ensures printed { IsTrue O.tells
        → (command : Option Asked) (source : Option (List ℕ)) (before : Outside) (after : Files)
        → PrintsPrefix command source before (outside after (O.written out.old))
        → Ends (IsAnswer command source before) (outside after (O.written out.old)) ended
        → PrintsPrefix command source before (outside after (O.written out.new)) }
    ensures takes { IsTrue O.tells
        → (command : Option Asked) (taking : Taking) (before : Outside) (after : Files)
        → EndsAnyhow (Takes command taking before) (outside after (O.written out.old)) ended
        → Takes command taking before (outside after (O.written out.new)) result }
    ensures words { result ≡ Status.Words → ended ≡ Err Fault.Words }
    ensures words_told { ended ≡ Err Fault.Words
        → (result ≡ Status.Words) ⊎ (result ≡ Status.WriteFault) ⊎ (result ≡ Status.Memory) }
    ensures read { result ≡ Status.ReadFault → ended ≡ Err Fault.ReadFault }
    ensures causes { (before : Counts) (reads source writes : ℕ)
        → CommandCauses before (counts reads source writes (O.faults out.old)) ended
        → Causes before (counts reads source writes (O.faults out.new)) result }
{
    match ended {
        Ok(Ending { line, outcome }) => match line {
            Some(line) => say(out, line.as_str(), outcome.status()),
            None => outcome.status(),
        },
        Err(fault) => match fault.line() {
            Some(line) => say(out, line, fault.status()),
            None => fault.status(),
        },
    }
}

/// Does what the words ask for: it reads the files, writes those that the command creates, prints the
/// lines, and says how it ended. The words are those of the command line without the program's name.
/// `plan`, `explain`, `parts` and `demo` search by the solver, and `check`, `checkparts` and `demo` ask it for the verdict;
/// no other command asks it.
pub fn run<D: Desk, I: Source, O: Sink, S: Solver>(
    alloc: Global,
    words: &[String],
    desk: &mut D,
    input: &mut I,
    out: &mut O,
    solver: &S,
) -> Status
    requires names { MayRun D.reads D.writes (asked words.now) }

    // The answer, where the desk and the sink tell, nothing failed and memory was there.
    ensures answer { let source = told I.tells (I.rest input.old) in
        let before = outside (D.files desk.old) (O.written out.old) in
        let after = outside (D.files desk.new) (O.written out.new) in
        let counts_before = counts (D.read_faults desk.old) (I.faults input.old)
        (D.write_faults desk.old) (O.faults out.old) in
        let counts_after = counts (D.read_faults desk.new) (I.faults input.new)
        (D.write_faults desk.new) (O.faults out.new) in
        IsTrue D.tells → IsTrue O.tells → NothingFailed counts_before counts_after
        → result ≢ Status.Memory → IsAnswer (asked words.now) source before after result }

    // For every desk and sink: this status only where the words are in no command, and there no answer
    // but this.
    ensures words { result ≡ Status.Words → asked words.now ≡ None }
    ensures no_command { asked words.now ≡ None
        → (result ≡ Status.Words) ⊎ (result ≡ Status.WriteFault) ⊎ (result ≡ Status.Memory) }

    // The causes of a failed read or write, and such a status for each cause.
    ensures causes { let before = counts (D.read_faults desk.old) (I.faults input.old)
        (D.write_faults desk.old) (O.faults out.old) in
        let after = counts (D.read_faults desk.new) (I.faults input.new)
        (D.write_faults desk.new) (O.faults out.new) in
        Causes before after result }

    // What is left however it ends: the files, what the sink has got, and the source.
    ensures files { let command = asked words.now in
        IsTrue D.tells → Leaves command (D.files desk.old) (D.files desk.new) }
    ensures failed_read { IsTrue D.tells → result ≡ Status.ReadFault
        → LeavesAtFailedRead (asked words.now) (D.files desk.old) (D.files desk.new) }
    ensures printed { let source = told I.tells (I.rest input.old) in
        let before = outside (D.files desk.old) (O.written out.old) in
        let after = outside (D.files desk.new) (O.written out.new) in
        IsTrue D.tells → IsTrue O.tells → PrintsPrefix (asked words.now) source before after }
    // Which bytes are taken from a source that tells, where the files that are read and the sink tell too.
    ensures takes { let taking = taking (I.rest input.old) (I.rest input.new)
        (I.faults input.old) (I.faults input.new) in
        let before = outside (D.files desk.old) (O.written out.old) in
        let after = outside (D.files desk.new) (O.written out.new) in
        IsTrue D.tells → IsTrue I.tells → IsTrue O.tells
        → Takes (asked words.now) taking before after result }
    ensures source { KeepsSource D.tells (D.files desk.old) (asked words.now) input.old input.new }

    // For every desk: a command that only reads leaves its count of failed writes, one that only
    // writes that of failed reads, and then no failed read is answered.
    ensures desk_writes { let command = asked words.now in
        KeepsDeskWrites command (D.write_faults desk.old) (D.write_faults desk.new) }
    ensures desk_reads { let command = asked words.now in
        KeepsDeskReads command (D.read_faults desk.old) (D.read_faults desk.new) }
    ensures reads { result ≡ Status.ReadFault → ReadsInput (asked words.now) }
{
    let ended = answer(alloc, words, desk, input, out, solver);
    finish(out, ended)
}
