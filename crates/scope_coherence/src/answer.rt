//! A dump, read for its coherence.

ghost use Rattle.std.specs.Prelude.{◌≡◌, ◌≤◌, ◌<◌, ℕ, List, Err, Some, IsTrue, OnOk, length};
ghost use Rattle.fsb_io.specs.Faults.{Rose};
ghost use Rattle.vcd_grammar.specs.Tokens.{Token};
ghost use Rattle.vcd_scan.specs.Wired.{wires_told};
ghost use Rattle.vcd_joined.specs.Behind.{gathered_in};
ghost use Rattle.vcd_joined.specs.Choosing.{Choice as Taking, choosing, IsTaken};
ghost use Rattle.scope_watch.specs.Heading.{IsReady, StandsBehind};
ghost use Rattle.scope_watch.specs.Watching.{rules_for};
ghost use Rattle.scope_coherence.specs.Answers.{IsCohered, IsCoheredAs};

use crate::coherer::Coherer;
use crate::cohering::Incoherent;
use fsb_io::Source;
use fsb_signal::Marks;
use scope_check::Part;
use scope_watch::{
    Behind, Header, Picked, Sampling, ScopeStop, marks_of, pick_bus, read_header, watch_values,
};
use scope_wiring::{Choice, Refusal, Wiring};
use std::alloc::Global;
use vcd_course::Stamp;
use vcd_joined::picked_wires_choose;
use vcd_scan::{EarlyEnd, Wires};

/// What was judged of a part of a dump.
#[derive(Clone, Copy, Debug)]
pub struct CoheredPart {
    /// How many clocks came before the part.
    pub start: u64,
    /// How many clocks the part has.
    pub judged: u64,
    /// Whether nothing is known of what came before it.
    pub is_later: bool,
    /// The first broken rule, of all rules, if one is.
    pub found: Option<Incoherent>,
    /// The stamp of the edge of its clock.
    pub stamp: Option<Stamp>,
    /// The end of a dump that ends early: what is whole before it was judged.
    pub early_end: Option<EarlyEnd>,
}

/// What was found of a dump.
#[derive(Debug, Drop)]
pub enum CoherenceFinding {
    /// The wires of the bus are not picked.
    Refused(Refusal),
    /// They are these, and this was judged of them.
    Judged(Wiring, CoheredPart),
}

/// A dump that was read for its coherence.
#[derive(Debug, Drop)]
pub struct Cohered {
    pub header: Header,
    pub finding: CoherenceFinding,
}

/// Reads on behind a header to the end of the source, and judges this part of the wires' values, which have these marks.
fn cohere_values<S: Source>(
    alloc: Global,
    source: &mut S,
    room: &mut [u8],
    behind: Behind,
    wires: Wires,
    marks: Marks,
    part: Part,
    sampling: Sampling,
) -> Result<CoheredPart, ScopeStop>
    requires some { 0 < length room.old }
    requires begun { IsReady behind }
    ensures judged { IsTrue S.tells → (c : Taking) (ts : List Token) (text : List ℕ) →
        StandsBehind (rules_for sampling) behind ts text (S.left source.old) →
        IsTaken c (gathered_in (rules_for sampling) ts).header (wires_told wires) →
        IsCoheredAs result part marks (choosing c (rules_for sampling)) text }
    ensures read_fault { result ≡ Err ScopeStop.ReadFault →
        Rose (S.faults source.old) (S.faults source.new) }
    ensures later { S.faults source.old ≤ S.faults source.new }
    ensures name_stays { IsTrue S.tells → S.begun_as source.new ≡ S.begun_as source.old }
    ensures holds_stays { IsTrue S.tells → S.holds source.new ≡ S.holds source.old }
{
    let mut coherer = Coherer::new(alloc, part, marks);
    let ended = watch_values(alloc, source, room, behind, wires, sampling, &mut coherer)?;
    let told = coherer.judge.told();
    Ok(CoheredPart {
        start: u64::from(told.start),
        judged: coherer.parting.count(),
        is_later: told.is_later,
        found: told.found,
        stamp: told.stamp,
        early_end: ended.early_end,
    })
}

/// Begins the source under the name, picks the wires of the bus in its header, and judges this part of their values by all
/// rules, 1 to 31, as a waveform of its own. Where the wires are not picked, nothing is read behind the piece in which the
/// header ends.
pub fn coherence_of<S: Source>(
    alloc: Global,
    name: &str,
    source: &mut S,
    room: &mut [u8],
    choice: &Choice,
    part: Part,
    sampling: Sampling,
) -> Result<Cohered, ScopeStop>
    requires named { length name.now ≤ 4096 }
    requires some { 0 < length room.old }
    ensures cohered { IsTrue S.tells →
        IsCohered result choice.now part sampling (S.holds source.old) }
    ensures named { IsTrue S.tells → OnOk result (S.begun_as source.new ≡ Some name.now) }
    ensures read_fault { result ≡ Err ScopeStop.ReadFault →
        Rose (S.faults source.old) (S.faults source.new) }
    ensures later { S.faults source.old ≤ S.faults source.new }
    ensures holds_stays { IsTrue S.tells → S.holds source.new ≡ S.holds source.old }
{
    picked_wires_choose();
    let begun = read_header(alloc, name, source, room)?;
    match pick_bus(alloc, &begun.header.variables, choice)? {
        Picked::Refused(refusal) => Ok(Cohered {
            header: begun.header,
            finding: CoherenceFinding::Refused(refusal),
        }),
        Picked::Wired(bus) => {
            let marks = marks_of(&bus.wiring.wires);
            let behind = begun.behind;
            let wires = bus.wires;
            let told = cohere_values(alloc, source, room, behind, wires, marks, part, sampling)?;
            Ok(Cohered {
                header: begun.header,
                finding: CoherenceFinding::Judged(bus.wiring, told),
            })
        }
    }
}
