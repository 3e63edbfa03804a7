//! How a call ended.
ghost use Rattle.std.specs.Prelude.{◌≡◌, ◌≤◌, ◌+◌, ◌++◌, length};
ghost use Rattle.arrayvec.specs.ArrayVec.{array_vec_len};
ghost use Rattle.fsb_top.specs.StatusText.{code_of, status_text, cause_name, dump_cause_text, line_name};

use arrayvec::ArrayVec;
use fsb_audit::FoulAt;
use fsb_audit_dump::foul_line;
use fsb_io::{Line, put_decimal, put_text};
use fsb_report::rejected_line;
use fsb_rules::Broken;
use fsb_script::{Cause, ScriptFault};
use fsb_signal::signal_at;
use vcd_read::{VcdCause, VcdFault};

/// How a call of `bench` ended.
#[derive(Clone, Copy, Debug, PartialEq, Eq)]
pub enum Status {
    /// Everything was read and written; of a check or a table, that the dump breaks no phase rule; of
    /// a search, that the trigger matches; of an audit, that the dump breaks no phase rule and has no
    /// foul clock.
    Done,
    /// The dump breaks a phase rule; this is the first clock with a broken rule and, there, the least rule. Of an audit, that
    /// no clock before is foul.
    Rejected(Broken),
    /// The words have no form of a command.
    BadWords,
    /// The file is no bench file; this is its first fault.
    BadBench(ScriptFault),
    /// The file is no dump; this is its first fault.
    BadDump(VcdFault),
    /// The source failed in this call.
    ReadFault,
    /// The sink of the log, or of what is told of a dump, failed in this call; it holds a prefix of its text.
    WriteFault,
    /// The sink of the dump failed in this call; it holds a prefix of its text, or what it held before where it could not
    /// be begun.
    DumpFault,
    /// Memory was lacking; nothing was written.
    OutOfMemory,
    /// The bench file is longer than 4,194,304 bytes; the dump is longer than 2^40 bytes, or has more than 2^32 - 1 samples
    /// before its first fault, or in all of it where it has no fault. Of a table, the dump is longer
    /// than 268,435,456 bytes, or has no fault and more than 200,000 samples.
    TooLong,
    /// The dump has a foul clock, and breaks no phase rule up to it; this is the first.
    Foul(FoulAt),
    /// The trigger that was searched for matches at no clock of the dump.
    NotFound,
}

/// The exit status of the program.
pub fn code(status: &Status) -> u8
    ensures { result ≡ code_of status.now }
{
    match status {
        Status::Done => 0,
        Status::Rejected(_) => 1,
        Status::BadWords => 2,
        Status::BadBench(_) => 3,
        Status::BadDump(_) => 4,
        Status::ReadFault => 5,
        Status::WriteFault => 6,
        Status::DumpFault => 7,
        Status::OutOfMemory => 8,
        Status::TooLong => 9,
        Status::Foul(_) => 10,
        Status::NotFound => 11,
    }
}

/// What is printed to standard error, without a line feed: nothing after `Done`. It takes no memory.
pub fn status_line(status: &Status) -> Line
    ensures { result.items ≡ status_text status.now }
{
    match status {
        Status::Done => ArrayVec::new(),
        Status::Rejected(broken) => rejected_line(broken),
        Status::BadWords => text_line("bad words"),
        Status::BadBench(fault) => bad_bench_line(fault),
        Status::BadDump(fault) => bad_dump_line(fault),
        Status::ReadFault => text_line("read fault"),
        Status::WriteFault => text_line("write fault"),
        Status::DumpFault => text_line("dump fault"),
        Status::OutOfMemory => text_line("out of memory"),
        Status::TooLong => text_line("too long"),
        Status::Foul(foul) => foul_line(foul),
        Status::NotFound => text_line("not found"),
    }
}

// The line of one text.
fn text_line(text: &str) -> Line
    requires { length text.now ≤ 256 }
    ensures { result.items ≡ text.now }
{
    let mut line = ArrayVec::new();
    put_text(&mut line, text);
    line
}

// The line of the first fault of a bench file.
fn bad_bench_line(fault: &ScriptFault) -> Line
    ensures { result.items ≡ status_text (Status.BadBench fault.now) }
{
    let mut line = ArrayVec::new();
    put_text(&mut line, "bench line ");
    put_decimal(&mut line, u64::from(fault.line));
    put_text(&mut line, ": ");
    put_text(&mut line, name_of(fault.cause));
    line
}

// The printed name of a cause.
fn name_of(cause: Cause) -> &'static str
    ensures name { result.now ≡ cause_name cause }
    ensures short { length result.now ≤ 12 }
{
    match cause {
        Cause::FirstLine => "FirstLine",
        Cause::Word => "Word",
        Cause::Number => "Number",
        Cause::Range => "Range",
        Cause::Align => "Align",
        Cause::Outside => "Outside",
        Cause::LockConflict => "LockConflict",
        Cause::LockSize => "LockSize",
        Cause::Missing => "Missing",
        Cause::After => "After",
    }
}

// The line of the first fault of a dump.
fn bad_dump_line(fault: &VcdFault) -> Line
    ensures { result.items ≡ status_text (Status.BadDump fault.now) }
{
    let mut line = ArrayVec::new();
    put_text(&mut line, "dump byte ");
    put_decimal(&mut line, fault.place);
    put_text(&mut line, ": ");
    put_dump_cause(&mut line, fault.cause);
    line
}

// Appends the printed cause of a dump's fault.
fn put_dump_cause(line: &mut Line, cause: VcdCause)
    requires { array_vec_len line.old + 60 ≤ 256 }
    ensures { line.new.items ≡ line.old.items ++ dump_cause_text cause }
{
    match cause {
        VcdCause::Token => put_text(line, "Token"),
        VcdCause::Header => put_text(line, "Header"),
        VcdCause::Code => put_text(line, "Code"),
        VcdCause::Width => put_text(line, "Width"),
        VcdCause::TimeBack => put_text(line, "TimeBack"),
        VcdCause::Missing(number) => {
            put_text(line, "Missing ");
            put_line_name(line, number);
        }
        VcdCause::Cut => put_text(line, "Cut"),
    }
}

// Appends the name of the line of this number.
fn put_line_name(line: &mut Line, number: u8)
    requires { array_vec_len line.old + 30 ≤ 256 }
    ensures { line.new.items ≡ line.old.items ++ line_name number }
{
    if number < 22 {
        put_text(line, signal_at(number).name);
    } else {
        put_decimal(line, u64::from(number));
    }
}
