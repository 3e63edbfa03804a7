//! The line of an audit.
ghost use Rattle.std.specs.Prelude.{◌≡◌, ◌≤◌};
ghost use Rattle.arrayvec.specs.ArrayVec.{array_vec_len};
ghost use Rattle.fsb_audit_dump.specs.AuditText.{audit_text, clean_text, foul_text};

use crate::audit::Audited;
use arrayvec::ArrayVec;
use fsb_audit::{Finding, FoulAt};
use fsb_io::{Line, put_decimal, put_hex, put_text};
use fsb_report::verdict_line;

/// The line of an audit, with its line feed: `clean clocks=<clocks> chunks=<chunks>`, or the line of the foul clock or of
/// the broken rule that is found first. It takes no memory.
pub fn audit_line(audited: Audited) -> Line
    ensures { result.items ≡ audit_text audited.clocks audited.found }
{
    match audited.found {
        Ok(chunks) => clean_line(audited.clocks, chunks),
        Err(Finding::Broken(broken)) => verdict_line(audited.clocks, Some(broken)),
        Err(Finding::Foul(foul)) => {
            let mut line = foul_line(&foul);
            put_text(&mut line, "\n");
            line
        }
    }
}

// The line of so many clocks of which none is foul, with so many chunks moved.
fn clean_line(clocks: u32, chunks: u64) -> Line
    ensures { result.items ≡ clean_text clocks chunks }
{
    let mut line = ArrayVec::new();
    put_text(&mut line, "clean clocks=");
    put_decimal(&mut line, u64::from(clocks));
    put_text(&mut line, " chunks=");
    put_decimal(&mut line, chunks);
    put_text(&mut line, "\n");
    line
}

/// A foul clock, without a line feed: `foul clock=<clock> addr=<address in hexadecimal>`. It takes no memory.
pub fn foul_line(foul: &FoulAt) -> Line
    ensures items { result.items ≡ foul_text foul.now }
    ensures short { array_vec_len result ≤ 60 }
{
    let mut line = ArrayVec::new();
    put_text(&mut line, "foul clock=");
    put_decimal(&mut line, u64::from(foul.clock));
    put_text(&mut line, " addr=");
    put_hex(&mut line, foul.addr);
    line
}
