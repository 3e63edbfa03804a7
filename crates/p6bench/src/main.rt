//! The program `p6bench`: the real files and standard output under the top call.
#![tactic(auto)]

ghost use Rattle.std.specs.Prelude.{◌≡◌, ◌≢◌, ◌≤◌, ◌⊎◌, ◌++◌, [], Some, None, Ok, Err, IfErr, IfOk, IsTrue, OnErr, OnOk, codes, drop, false, is_some, map};
ghost use Rattle.std.specs.IoError.{error_kind};
ghost use Rattle.std.specs.Option.{option_map};
ghost use Rattle.std.specs.Process.{exit_status};
ghost use Rattle.std.specs.String.{string_bytes};
ghost use Rattle.fsb_command.specs.Command.{form_meant};
ghost use Rattle.fsb_command.specs.Form.{KeepsLimits, form_of};
ghost use Rattle.fsb_gather.specs.HandsOn.{HandsOn};
ghost use Rattle.fsb_hazard.specs.Told.{told_after};
ghost use Rattle.fsb_io.specs.Appends.{AppendsPart};
ghost use Rattle.fsb_io.specs.Faults.{HasCause, Rose};
ghost use Rattle.fsb_script.specs.Plans.{PlanView};
ghost use Rattle.fsb_top.specs.BenchEnds.{MayEnd};
ghost use Rattle.fsb_top.specs.CallEnds.{RowEnds};
ghost use Rattle.fsb_top.specs.StatusText.{code_of, status_text};
ghost use Rattle.p6bench.specs.Program.{dump_below, name_read, name_written, printed_line, status_after, told_of, weights};

use fsb_gather::Gather;
use fsb_top::{
    Command, DataProbe, Failed, FileSink, FileSource, Hazard, LineProbe, Memory, Probe,
    ScriptHazard, Sink, Source, Status, StdoutSink, Words, carry_out, code, put_all, read_words,
    status_line,
};
use std::alloc::Global;
use std::env::Args;
use std::io::{self, ErrorKind};
use std::process::ExitCode;
use std::rt::{Env, Files};

// The numbers of the control lines ADS# and DRDY#.
const ADS: u8 = 7;

const DRDY: u8 = 17;

fn main(rt: HostRuntime) -> ExitCode {
    let status = run(&rt);
    // It has no name, as standard output has none, and is written in the same way.
    let stderr = rt.stderr();
    end(&mut StdoutSink::new(&stderr), &status)
}

// Does what the program's words ask for.
fn run(rt: &(impl Files + Env + Print + AllocGlobal)) -> Status {
    match words_of(rt) {
        Ok(words) => ended(call(rt, &words)),
        Err(status) => status,
    }
}

// The status of a call that came to its end, or lacked memory before it began.
fn ended(status: Result<Status, Memory>) -> Status
    ensures { result ≡ status_after status }
{
    match status {
        Ok(status) => status,
        Err(Memory) => Status::OutOfMemory,
    }
}

// Does what the words ask for. `Memory` means that it did nothing.
fn call(rt: &(impl Files + Print + AllocGlobal), words: &Words) -> Result<Status, Memory>
    ensures bad_words { result ≡ Ok Status.BadWords → form_of words.now ≡ None }
    ensures ends { IfOk result (λ status. MayEnd (form_of words.now) status) }
{
    match read_words(rt.alloc(), words) {
        Err(memory) => Err(memory),
        Ok(command) => match command {
            None => Ok(Status::BadWords),
            Some(command) => obey(rt, command),
        },
    }
}

// Does what a command asks for, with one object that does what a bench file's hazard lines say, and with three probes.
// It reads the file that the command names and writes to standard output, and to the file that it names for a dump, which
// never is the file that is read. A dump is stored before the call is done. `Memory` means that it did nothing.
fn obey(rt: &(impl Files + Print + AllocGlobal), command: Command<'_>) -> Result<Status, Memory>
    requires { KeepsLimits (form_meant command) }
    ensures { IfOk result (λ status. MayEnd (Some (form_meant command.entry)) status) }
{
    let alloc = rt.alloc();
    let mut hazards: Vec<Box<dyn Hazard>> = Vec::new(alloc);
    hazards.push(Box::new(alloc, ScriptHazard::new(alloc))?)?;
    let mut probes: Vec<Box<dyn Probe>> = Vec::new(alloc);
    probes.push(Box::new(alloc, LineProbe::new(ADS))?)?;
    probes.push(Box::new(alloc, LineProbe::new(DRDY))?)?;
    probes.push(Box::new(alloc, DataProbe::new())?)?;
    let names_dump = names_dump(&command);
    let mut source = FileSource::new(rt);
    let mut out = StdoutSink::new(rt);
    let mut dump = Gather::new(alloc, FileSink::new(rt, file_read(&command)))?;
    let status = perform(
        alloc,
        command,
        &mut source,
        &mut out,
        &mut dump,
        hazards,
        probes,
    );
    Ok(kept(status, names_dump, dump))
}

// The end of a call that may have named a dump: where it was done, the system is asked to store the dump.
fn kept<R: Files + Print>(status: Status, names_dump: bool, dump: Gather<FileSink<'_, R>>) -> Status
    ensures unnamed { names_dump ≡ false → result ≡ status }
    ensures ends { (result ≡ status)
        ⊎ ((status ≡ Status.Done) × (result ≡ Status.DumpFault)) }
{
    if !names_dump {
        return status;
    }
    match status {
        Status::Done => {
            let mut file = dump.into_sink();
            stored(file.store())
        }
        other => other,
    }
}

// The name of the file that a command reads, where it reads one.
fn file_read<'a>(command: &Command<'a>) -> Option<&'a str>
    ensures { option_map (λ name. name.now) result ≡ name_read (form_meant command.now) }
{
    match command {
        Command::Run { bench, .. } => Some(*bench),
        Command::Look { dump, .. } => Some(*dump),
        Command::Gen { .. } => None,
    }
}

// Whether a command names a dump to be written.
fn names_dump(command: &Command<'_>) -> bool
    ensures { result ≡ is_some (name_written (form_meant command.now)) }
{
    match command {
        Command::Run { dump, .. } => dump.is_some(),
        Command::Look { .. } => false,
        Command::Gen { .. } => false,
    }
}

// The status of a run whose dump was handed on, by whether the system stored it.
fn stored(answer: Result<(), Failed>) -> Status
    ensures done { OnOk answer (result ≡ Status.Done) }
    ensures refused { OnErr answer (result ≡ Status.DumpFault) }
{
    if answer.is_ok() {
        Status::Done
    } else {
        Status::DumpFault
    }
}

// What a command asks for, with one object that does what a bench file's hazard lines say and with three probes, and the
// end of its dump. What is said of the dump is said of the sink below the one that gathers; no call of it has failed
// before. What is said of bytes and names holds for a source and sinks that tell them.
fn perform<S: Source, O: Sink, D: Sink>(
    alloc: Global,
    command: Command<'_>,
    source: &mut S,
    out: &mut O,
    dump: &mut Gather<D>,
    hazards: Vec<Box<dyn Hazard>>,
    probes: Vec<Box<dyn Probe>>,
) -> Status
    requires limits { KeepsLimits (form_meant command) }
    requires scripted { (plan : PlanView) →
        map (λ h. told_after (is_scripted h) plan.hazards (told h)) hazards.items ≡ told_of plan }
    requires weighed { map (λ p. weight p) probes.items ≡ weights }
    requires fresh { dump.old.gathered ≡ [] }
    requires unfailed { D.faults dump.old.sink ≡ 0 }
    ensures ends { RowEnds S.Source O.Sink (dump_below D.Sink dump.old dump.new)
        source.old source.new out.old out.new told_of weights (form_meant command.entry) result }
    ensures may_end { MayEnd (Some (form_meant command.entry)) result }
    ensures holds_stays { IsTrue S.tells → S.holds source.new ≡ S.holds source.old }
    ensures log_name { IsTrue O.tells → O.begun_as out.new ≡ O.begun_as out.old }
    ensures handed_on { result ≡ Status.Done → dump.new.gathered ≡ [] }
{
    let status = carry_out(alloc, command, source, out, dump, hazards, probes);
    finished(status, dump)
}

// The end of a call: what is gathered of the dump is handed on, and a call that was done is done only where
// nothing of it is left. Where nothing is gathered, as after every command but a run with a dump, no sink is called.
fn finished<D: Sink>(status: Status, dump: &mut Gather<D>) -> Status
    ensures others_stay { status ≢ Status.Done → result ≡ status }
    ensures not_called { status ≢ Status.Done → dump.new ≡ dump.old }
    ensures nothing_left { dump.old.gathered ≡ [] →
        (result ≡ status) × (dump.new ≡ dump.old) }
    ensures done { result ≡ Status.Done → dump.new.gathered ≡ [] }
    ensures whole { IsTrue D.tells → result ≡ Status.Done →
        D.holds dump.new.sink ≡ D.holds dump.old.sink ++ dump.old.gathered }
    ensures handed { IsTrue D.tells → HandsOn dump.old.gathered dump.new.gathered
        (D.holds dump.old.sink) (D.holds dump.new.sink) }
    ensures name_stays { IsTrue D.tells → D.begun_as dump.new.sink ≡ D.begun_as dump.old.sink }
    ensures fault { status ≡ Status.Done → result ≢ Status.Done → result ≡ Status.DumpFault }
    ensures cause { status ≡ Status.Done → result ≢ Status.Done →
        Rose (D.faults dump.old.sink) (D.faults dump.new.sink) }
    ensures later { D.faults dump.old.sink ≤ D.faults dump.new.sink }
{
    match status {
        Status::Done if dump.gathered().is_empty() => Status::Done,
        Status::Done => match dump.finish() {
            Ok(()) => Status::Done,
            Err(Failed) => Status::DumpFault,
        },
        other => other,
    }
}

// The words that the program was called with.
fn words_of(rt: &(impl Env + AllocGlobal)) -> Result<Words, Status>
    ensures { (status : Status) → result ≡ Err status →
        (status ≡ Status.BadWords) ⊎ (status ≡ Status.OutOfMemory) }
{
    words_in(rt.alloc(), std::env::args(rt))
}

// The words in what the system told of the program's call: those after its name.
fn words_in(alloc: Global, args: io::Result<Args>) -> Result<Words, Status>
    ensures words { IfOk args (λ args. IfOk result (λ words.
        words ≡ drop 1 (map (λ word. string_bytes word) args.rest.items))) }
    ensures full { OnOk args ((status : Status) → result ≡ Err status →
        status ≡ Status.OutOfMemory) }
    ensures memory { IfErr args (λ error. error_kind error ≡ ErrorKind.OutOfMemory →
        result ≡ Err Status.OutOfMemory) }
    ensures no_text { IfErr args (λ error. error_kind error ≢ ErrorKind.OutOfMemory →
        result ≡ Err Status.BadWords) }
    ensures one { (status : Status) → result ≡ Err status →
        (status ≡ Status.BadWords) ⊎ (status ≡ Status.OutOfMemory) }
{
    match args {
        Ok(args) => words_after_name(alloc, args),
        Err(error) => Err(no_words(error.kind())),
    }
}

// The status of a call whose words could not be had: memory lacked, or they are no text.
fn no_words(kind: ErrorKind) -> Status
    ensures memory { kind ≡ ErrorKind.OutOfMemory → result ≡ Status.OutOfMemory }
    ensures no_text { kind ≢ ErrorKind.OutOfMemory → result ≡ Status.BadWords }
    ensures one { (result ≡ Status.BadWords) ⊎ (result ≡ Status.OutOfMemory) }
{
    if kind == ErrorKind::OutOfMemory {
        Status::OutOfMemory
    } else {
        Status::BadWords
    }
}

// The words after the program's name.
fn words_after_name(alloc: Global, mut args: Args) -> Result<Words, Status>
    ensures words { IfOk result (λ words.
        words ≡ drop 1 (map (λ word. string_bytes word) args.rest.items)) }
    ensures memory { (status : Status) → result ≡ Err status → status ≡ Status.OutOfMemory }
{
    let mut words = Words::new(alloc);
    if args.next().is_none() {
        return Ok(words);
    }
    for word in args {
        if words.push(alloc, word.as_str()).is_err() {
            return Err(Status::OutOfMemory);
        }
    }
    Ok(words)
}

// The end of the program: the status's line is written to standard error, where it has one, and its number is the exit
// status, whether the line could be written or not.
fn end<E: Sink>(stderr: &mut E, status: &Status) -> ExitCode
    ensures exits { exit_status result ≡ code_of status.now }
    ensures silent { status_text status.now ≡ [] → stderr.new ≡ stderr.old }
    ensures told { IsTrue E.tells → ¬ Rose (E.faults stderr.old) (E.faults stderr.new) →
        E.holds stderr.new ≡ E.holds stderr.old ++ printed_line (status_text status.now) }
    ensures part { IsTrue E.tells →
        AppendsPart (printed_line (status_text status.now)) (E.holds stderr.old)
        (E.holds stderr.new) }
    ensures name_stays { IsTrue E.tells → E.begun_as stderr.new ≡ E.begun_as stderr.old }
{
    let line = status_line(status);
    if !line.is_empty() {
        let _ = report(stderr, line.as_slice());
    }
    ExitCode::from(code(status))
}

// Writes a line and its line feed.
fn report<E: Sink>(stderr: &mut E, line: &[u8]) -> Result<(), Failed>
    ensures whole { IsTrue E.tells →
        OnOk result (E.holds stderr.new ≡ E.holds stderr.old ++ (line.now ++ codes "\n")) }
    ensures part { IsTrue E.tells →
        AppendsPart (line.now ++ codes "\n") (E.holds stderr.old) (E.holds stderr.new) }
    ensures name_stays { IsTrue E.tells → E.begun_as stderr.new ≡ E.begun_as stderr.old }
    ensures cause { HasCause (E.faults stderr.old) (E.faults stderr.new) result }
{
    put_all(stderr, line)?;
    put_all(stderr, b"\n")
}
