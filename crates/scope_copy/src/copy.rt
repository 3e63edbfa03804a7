//! The copy of a dump: the samples of its part are written as they come.

ghost use Rattle.std.specs.Prelude.{◌≡◌, ◌≤◌, ◌<◌, ℕ, List, Err, Some, IsTrue, OnOk, length};
ghost use Rattle.fsb_io.specs.Faults.{Rose};
ghost use Rattle.vcd_grammar.specs.Tokens.{Token};
ghost use Rattle.vcd_scan.specs.Wired.{wires_told};
ghost use Rattle.vcd_joined.specs.Behind.{gathered_in};
ghost use Rattle.vcd_joined.specs.Choosing.{Choice as Taking, choosing, IsTaken};
ghost use Rattle.scope_watch.specs.Heading.{IsReady, StandsBehind};
ghost use Rattle.scope_watch.specs.Watching.{rules_for};
ghost use Rattle.scope_copy.specs.Copying.{IsPutAs, IsCopied};

use crate::copier::Copier;
use crate::there::there_of;
use fsb_io::{Failed, Sink, Source};
use scope_check::Part;
use scope_silent::unwired_lines_are_silent;
use scope_watch::{
    Behind, Header, Picked, Sampling, ScopeStop, pick_bus, read_header, watch_values,
};
use scope_wiring::{Choice, Refusal, Wiring};
use scope_write::DumpWriter;
use std::alloc::Global;
use vcd_joined::picked_wires_choose;
use vcd_scan::{EarlyEnd, Wires};

/// What was written of a dump.
#[derive(Debug, Drop)]
pub struct CopiedText {
    /// How many clocks were written.
    pub clocks: u64,
    /// The end of a dump that ends early: what is whole before it was written.
    pub early_end: Option<EarlyEnd>,
}

/// What became of the copy of a dump.
#[derive(Debug, Drop)]
pub enum CopyFinding {
    /// The wires of the bus are not picked, and nothing was written.
    Refused(Refusal),
    /// They are these, and so much was written of them.
    Copied(Wiring, CopiedText),
}

/// A dump that was copied.
#[derive(Debug, Drop)]
pub struct Copied {
    pub header: Header,
    pub finding: CopyFinding,
}

/// Reads on behind a header to the end of the source, and writes the header of a dump of these lines and each clock of this
/// part of the wires' values.
fn copy_values<S: Source, D: Sink>(
    alloc: Global,
    source: &mut S,
    room: &mut [u8],
    behind: Behind,
    wires: Wires,
    there: [bool; 22],
    part: Part,
    sampling: Sampling,
    out: &mut D,
) -> Result<CopiedText, ScopeStop>
    requires some { 0 < length room.old }
    requires begun { IsReady behind }
    ensures put { IsTrue S.tells → IsTrue D.tells → (c : Taking) (ts : List Token) (text : List ℕ) →
        StandsBehind (rules_for sampling) behind ts text (S.left source.old) →
        IsTaken c (gathered_in (rules_for sampling) ts).header (wires_told wires) →
        IsPutAs result part there (choosing c (rules_for sampling)) text (D.holds out.old)
        (D.holds out.new) }
    ensures write_fault { result ≡ Err ScopeStop.WriteFault →
        Rose (D.faults out.old) (D.faults out.new) }
    ensures read_fault { result ≡ Err ScopeStop.ReadFault →
        Rose (S.faults source.old) (S.faults source.new) }
    ensures later { S.faults source.old ≤ S.faults source.new }
    ensures name_stays { IsTrue S.tells → S.begun_as source.new ≡ S.begun_as source.old }
    ensures holds_stays { IsTrue S.tells → S.holds source.new ≡ S.holds source.old }
{
    let writer = match DumpWriter::begin(out, there) {
        Ok(writer) => writer,
        Err(Failed) => return Err(ScopeStop::WriteFault),
    };
    let mut copier = Copier::new(out, writer, there, part);
    let ended = watch_values(alloc, source, room, behind, wires, sampling, &mut copier)?;
    Ok(CopiedText {
        clocks: copier.parting.count(),
        early_end: ended.early_end,
    })
}

/// Begins the source under the name, picks the wires of the bus in its header, and writes this part of their values to the
/// sink as a dump of its own. Where they are not picked, nothing is read behind the piece in which the header ends, and
/// nothing is written.
///
/// After an Err a first part of a dump may have been written.
pub fn copy_dump<S: Source, D: Sink>(
    alloc: Global,
    name: &str,
    source: &mut S,
    room: &mut [u8],
    choice: &Choice,
    part: Part,
    sampling: Sampling,
    out: &mut D,
) -> Result<Copied, ScopeStop>
    requires named { length name.now ≤ 4096 }
    requires some { 0 < length room.old }
    ensures copied { IsTrue S.tells → IsTrue D.tells →
        IsCopied result choice.now part sampling (S.holds source.old) (D.holds out.old)
        (D.holds out.new) }
    ensures write_fault { IsTrue S.tells → result ≡ Err ScopeStop.WriteFault →
        Rose (D.faults out.old) (D.faults out.new) }
    ensures named { IsTrue S.tells → OnOk result (S.begun_as source.new ≡ Some name.now) }
    ensures read_fault { result ≡ Err ScopeStop.ReadFault →
        Rose (S.faults source.old) (S.faults source.new) }
    ensures later { S.faults source.old ≤ S.faults source.new }
    ensures holds_stays { IsTrue S.tells → S.holds source.new ≡ S.holds source.old }
{
    picked_wires_choose();
    unwired_lines_are_silent();
    let begun = read_header(alloc, name, source, room)?;
    match pick_bus(alloc, &begun.header.variables, choice)? {
        Picked::Refused(refusal) => Ok(Copied {
            header: begun.header,
            finding: CopyFinding::Refused(refusal),
        }),
        Picked::Wired(bus) => {
            let there = there_of(&bus.wiring.wires);
            let behind = begun.behind;
            let wires = bus.wires;
            let told = copy_values(
                alloc, source, room, behind, wires, there, part, sampling, out,
            )?;
            Ok(Copied {
                header: begun.header,
                finding: CopyFinding::Copied(bus.wiring, told),
            })
        }
    }
}
