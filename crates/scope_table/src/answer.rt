//! A dump, read for the table of its requests.

ghost use Rattle.std.specs.Prelude.{◌≡◌, ◌≤◌, ◌<◌, ◌++◌, ℕ, List, Err, Some, IsTrue, OnOk, length};
ghost use Rattle.fsb_io.specs.Faults.{Rose};
ghost use Rattle.vcd_grammar.specs.Tokens.{Token};
ghost use Rattle.vcd_scan.specs.Wired.{wires_told};
ghost use Rattle.vcd_joined.specs.Behind.{gathered_in};
ghost use Rattle.vcd_joined.specs.Choosing.{Choice as Taking, choosing, IsTaken};
ghost use Rattle.scope_watch.specs.Heading.{IsReady, StandsBehind};
ghost use Rattle.scope_watch.specs.Watching.{rules_for};
ghost use Rattle.row_texts.specs.Lines.{head_text};
ghost use Rattle.scope_table.specs.Standing.{IsStopOfWriting};
ghost use Rattle.scope_table.specs.Tabled.{IsTableAs, IsTabled};

use crate::tabler::Tabler;
use fsb_io::{Failed, Memory, Sink, Source, put_all};
use fsb_rules::Broken;
use fsb_signal::Marks;
use request_lines::head_line;
use row_texts::Form;
use scope_check::Part;
use scope_watch::{
    Behind, Header, Picked, Sampling, ScopeStop, marks_of, pick_bus, read_header, watch_values,
};
use scope_wiring::{Choice, Refusal, Wiring};
use std::alloc::Global;
use vcd_course::Stamp;
use vcd_joined::picked_wires_choose;
use vcd_scan::{EarlyEnd, Wires};

/// What was written of a part of a dump.
#[derive(Clone, Copy, Debug)]
pub struct TabledPart {
    /// How many clocks came before the part.
    pub start: u64,
    /// How many clocks the part has.
    pub clocks: u64,
    /// The first broken phase rule, if one is, its clock counted from the first one of the part: the table has the requests of
    /// the clocks before it.
    pub found: Option<Broken>,
    /// The stamp of the edge of its clock.
    pub stamp: Option<Stamp>,
    /// The end of a dump that ends early: the table is of what is whole before it.
    pub early_end: Option<EarlyEnd>,
}

/// What became of the table of a dump.
#[derive(Debug, Drop)]
pub enum TableFinding {
    /// The wires of the bus are not picked, and nothing was written.
    Refused(Refusal),
    /// They are these, and this was written of them.
    Tabled(Wiring, TabledPart),
}

/// A dump whose requests were written.
#[derive(Debug, Drop)]
pub struct Tabled {
    pub header: Header,
    pub finding: TableFinding,
}

/// Writes the line of the names.
fn put_names<D: Sink>(alloc: Global, form: Form, out: &mut D) -> Result<(), ScopeStop>
    ensures text { IsTrue D.tells →
        OnOk result (D.holds out.new ≡ D.holds out.old ++ head_text form) }
    ensures stop { (stop : ScopeStop) → result ≡ Err stop → IsStopOfWriting stop }
    ensures later { D.faults out.old ≤ D.faults out.new }
    ensures write_fault { result ≡ Err ScopeStop.WriteFault →
        Rose (D.faults out.old) (D.faults out.new) }
{
    match head_line(alloc, form) {
        Err(Memory) => Err(ScopeStop::Memory),
        Ok(text) => match put_all(out, &text) {
            Ok(()) => Ok(()),
            Err(Failed) => Err(ScopeStop::WriteFault),
        },
    }
}

/// Reads on behind a header to the end of the source, and writes the table of this part of the wires' values, which have these
/// marks.
fn table_values<S: Source, D: Sink>(
    alloc: Global,
    source: &mut S,
    room: &mut [u8],
    behind: Behind,
    wires: Wires,
    marks: Marks,
    part: Part,
    form: Form,
    sampling: Sampling,
    out: &mut D,
) -> Result<TabledPart, ScopeStop>
    requires some { 0 < length room.old }
    requires begun { IsReady behind }
    ensures put { IsTrue S.tells → IsTrue D.tells → (c : Taking) (ts : List Token) (text : List ℕ) →
        StandsBehind (rules_for sampling) behind ts text (S.left source.old) →
        IsTaken c (gathered_in (rules_for sampling) ts).header (wires_told wires) →
        IsTableAs result part form marks (choosing c (rules_for sampling)) text (D.holds out.old)
        (D.holds out.new) }
    ensures write_fault { IsTrue S.tells → (c : Taking) (ts : List Token) (text : List ℕ) →
        StandsBehind (rules_for sampling) behind ts text (S.left source.old) →
        IsTaken c (gathered_in (rules_for sampling) ts).header (wires_told wires) →
        result ≡ Err ScopeStop.WriteFault → Rose (D.faults out.old) (D.faults out.new) }
    ensures read_fault { result ≡ Err ScopeStop.ReadFault →
        Rose (S.faults source.old) (S.faults source.new) }
    ensures later { S.faults source.old ≤ S.faults source.new }
    ensures name_stays { IsTrue S.tells → S.begun_as source.new ≡ S.begun_as source.old }
    ensures holds_stays { IsTrue S.tells → S.holds source.new ≡ S.holds source.old }
{
    put_names(alloc, form, out)?;
    let mut tabler = Tabler::new(out, alloc, part, marks, form);
    let ended = watch_values(alloc, source, room, behind, wires, sampling, &mut tabler)?;
    tabler.finish()?;
    Ok(TabledPart {
        start: u64::from(tabler.start),
        clocks: tabler.parting.count(),
        found: tabler.lines.found(),
        stamp: tabler.stamp,
        early_end: ended.early_end,
    })
}

/// Begins the source under the name, picks the wires of the bus in its header, and writes to the sink the table of the requests
/// of this part of their values, as a waveform of its own, up to the first broken phase rule. Where they are not picked, nothing
/// is read behind the piece in which the header ends, and nothing is written.
///
/// After an Err a first part of a table may have been written.
pub fn table_of<S: Source, D: Sink>(
    alloc: Global,
    name: &str,
    source: &mut S,
    room: &mut [u8],
    choice: &Choice,
    part: Part,
    form: Form,
    sampling: Sampling,
    out: &mut D,
) -> Result<Tabled, ScopeStop>
    requires named { length name.now ≤ 4096 }
    requires some { 0 < length room.old }
    ensures tabled { IsTrue S.tells → IsTrue D.tells →
        IsTabled result choice.now part form sampling (S.holds source.old) (D.holds out.old)
        (D.holds out.new) }
    ensures write_fault { IsTrue S.tells → result ≡ Err ScopeStop.WriteFault →
        Rose (D.faults out.old) (D.faults out.new) }
    ensures named { IsTrue S.tells → OnOk result (S.begun_as source.new ≡ Some name.now) }
    ensures read_fault { result ≡ Err ScopeStop.ReadFault →
        Rose (S.faults source.old) (S.faults source.new) }
    ensures later { S.faults source.old ≤ S.faults source.new }
    ensures holds_stays { IsTrue S.tells → S.holds source.new ≡ S.holds source.old }
{
    picked_wires_choose();
    let begun = read_header(alloc, name, source, room)?;
    match pick_bus(alloc, &begun.header.variables, choice)? {
        Picked::Refused(refusal) => Ok(Tabled {
            header: begun.header,
            finding: TableFinding::Refused(refusal),
        }),
        Picked::Wired(bus) => {
            let marks = marks_of(&bus.wiring.wires);
            let behind = begun.behind;
            let wires = bus.wires;
            let told = table_values(
                alloc, source, room, behind, wires, marks, part, form, sampling, out,
            )?;
            Ok(Tabled {
                header: begun.header,
                finding: TableFinding::Tabled(bus.wiring, told),
            })
        }
    }
}
