//! The top call.
ghost use Rattle.std.specs.Prelude.{◌≡◌, ◌≤◌, IsTrue, Some, length, map};
ghost use Rattle.fsb_command.specs.Command.{form_meant, task_meant};
ghost use Rattle.fsb_command.specs.Form.{Form, KeepsLimits, form_of};
ghost use Rattle.fsb_hazard.specs.Told.{told_after};
ghost use Rattle.fsb_io.specs.Faults.{Rose};
ghost use Rattle.fsb_top.specs.CallEnds.{CallEnds, LookEnds, RowEnds, dump_call};
ghost use Rattle.fsb_top.specs.Complete.{IsComplete, IsReadable};
ghost use Rattle.fsb_top.specs.Looks.{look_at};

use crate::audit::audit_file;
use crate::check::check_file;
use crate::find::find_file;
use crate::laws::files_have_one_answer;
use crate::run::{run_file, run_made};
use crate::show::show_file;
use crate::status::Status;
use crate::wave::wave_file;
use fsb_command::{Command, Task, Words, read_words};
use fsb_hazard::Hazard;
use fsb_io::{Sink, Source};
use fsb_probe::Probe;
use std::alloc::Global;

/// Does what the words ask for: runs the bench file in `source`, and writes the log to `out` and
/// the dump, where one is named, to `dump`; or runs the plan that a seed makes, and writes its
/// summary to `out`; or checks or audits the dump in `source` by its own
/// marks, tells it as a table with the totals of the probes, searches it for a trigger or draws a
/// range of its clocks, and writes the line of the verdict, of the audit or of the search, the
/// table or the wave, to `out`.
///
/// How the call ends is one relation, `CallEnds`, with a row for each form of the words: what was
/// read and under which name, what that means, what was printed and dumped, and what stayed as it
/// was. Where what is read is what the words ask for, within its limits, and no object failed in
/// this call, the call does all that they ask for, or memory lacks.
///
/// The objects in `hazards` are given the plan's hazard lines and asked at each clock of a run; that
/// no other command asks them is so in the code and in no clause.
///
/// What is said of bytes and names holds for a source and sinks that tell them. fsb_calls has laws
/// for what follows from the relation, and fsb_headline says it in the words of the README.
pub fn bench<S: Source, O: Sink, D: Sink>(
    alloc: Global,
    words: &Words,
    source: &mut S,
    out: &mut O,
    dump: &mut D,
    hazards: Vec<Box<dyn Hazard>>,
    probes: Vec<Box<dyn Probe>>,
) -> Status
    ensures ends { CallEnds S.Source O.Sink (dump_call D.Sink dump.old dump.new)
        source.old source.new out.old out.new
        (λ plan. map (λ h. told_after (is_scripted h) plan.hazards (told h)) hazards.items)
        (map (λ p. weight p) probes.items) (form_of words.now) result }
    ensures complete { IsTrue S.tells → (form : Form) → form_of words.now ≡ Some form →
        IsReadable form (S.holds source.old) → ¬ Rose (S.faults source.old) (S.faults source.new) →
        ¬ Rose (O.faults out.old) (O.faults out.new) →
        ¬ Rose (D.faults dump.old) (D.faults dump.new) → IsComplete result }
    ensures holds_stays { IsTrue S.tells → S.holds source.new ≡ S.holds source.old }
    ensures log_name { IsTrue O.tells → O.begun_as out.new ≡ O.begun_as out.old }
{
    files_have_one_answer();
    match read_words(alloc, words) {
        Err(_) => Status::OutOfMemory,
        Ok(command) => match command {
            None => Status::BadWords,
            Some(command) => carry_out(alloc, command, source, out, dump, hazards, probes),
        },
    }
}

/// Does what a command asks for, as `bench` does what words ask for. The row of its form says how
/// the call ends.
pub fn carry_out<S: Source, O: Sink, D: Sink>(
    alloc: Global,
    command: Command<'_>,
    source: &mut S,
    out: &mut O,
    dump: &mut D,
    hazards: Vec<Box<dyn Hazard>>,
    probes: Vec<Box<dyn Probe>>,
) -> Status
    requires { KeepsLimits (form_meant command) }
    ensures ends { RowEnds S.Source O.Sink (dump_call D.Sink dump.old dump.new)
        source.old source.new out.old out.new
        (λ plan. map (λ h. told_after (is_scripted h) plan.hazards (told h)) hazards.items)
        (map (λ p. weight p) probes.items) (form_meant command.entry) result }
    ensures holds_stays { IsTrue S.tells → S.holds source.new ≡ S.holds source.old }
    ensures log_name { IsTrue O.tells → O.begun_as out.new ≡ O.begun_as out.old }
{
    match command {
        Command::Run { bench, dump: name } => {
            run_file(alloc, bench, name, source, out, dump, hazards)
        }
        Command::Gen {
            seed,
            agents,
            items,
        } => run_made(alloc, seed, agents, items, out, dump, hazards),
        Command::Look { dump: name, task } => look_file(alloc, name, task, source, out, probes),
    }
}

// Does a task over the dump that the source holds under the name, and writes what is told of it to `out`.
fn look_file<S: Source, O: Sink>(
    alloc: Global,
    name: &str,
    task: Task,
    source: &mut S,
    out: &mut O,
    probes: Vec<Box<dyn Probe>>,
) -> Status
    requires { length name.now ≤ 4096 }
    ensures ends { LookEnds S.Source O.Sink source.old source.new out.old out.new
        (map (λ p. weight p) probes.items) name.now (look_at (task_meant task)) result }
    ensures holds_stays { IsTrue S.tells → S.holds source.new ≡ S.holds source.old }
    ensures log_name { IsTrue O.tells → O.begun_as out.new ≡ O.begun_as out.old }
{
    match task {
        Task::Check => check_file(alloc, name, source, out),
        Task::Audit => audit_file(alloc, name, source, out),
        Task::Show => {
            let mut probes = probes;
            show_file(alloc, name, source, out, &mut probes)
        }
        Task::Find(trigger) => find_file(alloc, name, trigger, source, out),
        Task::Wave(range) => wave_file(alloc, name, &range, source, out),
    }
}
