//! The writing of texts, line by line.
ghost use Rattle.std.specs.Prelude.{◌≡◌, ◌<◌, ◌^◌, ◌++◌, IsTrue, OnOk, length};
ghost use Rattle.fsb_io.specs.Appends.{AppendsPart};
ghost use Rattle.fsb_io.specs.Faults.{HasCause};
ghost use Rattle.fsb_report.specs.LogText.{log_text, log_line_text, end_line_text};

use fsb_access::Done;
use fsb_io::{Failed, Sink, put_all};
use fsb_report::{end_line, log_line};

/// Writes the log of a run over so many clocks, whose scripts have `of` accesses: one piece a line.
pub(crate) fn write_log<O: Sink>(
    out: &mut O,
    clocks: u32,
    of: u32,
    log: &[Done],
) -> Result<(), Failed>
    requires { length log.now < 2 ^ 32 }
    ensures whole { IsTrue O.tells →
        OnOk result (O.holds out.new ≡ O.holds out.old ++ log_text clocks of log.now) }
    ensures part { IsTrue O.tells →
        AppendsPart (log_text clocks of log.now) (O.holds out.old) (O.holds out.new) }
    ensures name_stays { IsTrue O.tells → O.begun_as out.new ≡ O.begun_as out.old }
    ensures cause { HasCause (O.faults out.old) (O.faults out.new) result }
{
    for done in log {
        write_line(out, done)?;
    }
    write_end(out, clocks, log.len() as u32, of)
}

// Writes the line of one entry.
fn write_line<O: Sink>(out: &mut O, done: &Done) -> Result<(), Failed>
    ensures whole { IsTrue O.tells →
        OnOk result (O.holds out.new ≡ O.holds out.old ++ log_line_text done.now) }
    ensures part { IsTrue O.tells →
        AppendsPart (log_line_text done.now) (O.holds out.old) (O.holds out.new) }
    ensures name_stays { IsTrue O.tells → O.begun_as out.new ≡ O.begun_as out.old }
    ensures cause { HasCause (O.faults out.old) (O.faults out.new) result }
{
    put_all(out, log_line(done).as_slice())
}

// Writes the last line.
fn write_end<O: Sink>(out: &mut O, clocks: u32, done: u32, of: u32) -> Result<(), Failed>
    ensures whole { IsTrue O.tells →
        OnOk result (O.holds out.new ≡ O.holds out.old ++ end_line_text clocks done of) }
    ensures part { IsTrue O.tells →
        AppendsPart (end_line_text clocks done of) (O.holds out.old) (O.holds out.new) }
    ensures name_stays { IsTrue O.tells → O.begun_as out.new ≡ O.begun_as out.old }
    ensures cause { HasCause (O.faults out.old) (O.faults out.new) result }
{
    put_all(out, end_line(clocks, done, of).as_slice())
}

/// Writes three lines, one piece each.
pub(crate) fn write_lines<O: Sink>(
    out: &mut O,
    first: &[u8],
    second: &[u8],
    third: &[u8],
) -> Result<(), Failed>
    ensures whole { IsTrue O.tells → OnOk result
        (O.holds out.new ≡ O.holds out.old ++ (first.now ++ second.now ++ third.now)) }
    ensures part { IsTrue O.tells →
        AppendsPart (first.now ++ second.now ++ third.now) (O.holds out.old) (O.holds out.new) }
    ensures name_stays { IsTrue O.tells → O.begun_as out.new ≡ O.begun_as out.old }
    ensures cause { HasCause (O.faults out.old) (O.faults out.new) result }
{
    put_all(out, first)?;
    put_all(out, second)?;
    put_all(out, third)
}
