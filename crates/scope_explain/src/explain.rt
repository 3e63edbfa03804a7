//! A dump, read once more for the reasons.

ghost use Rattle.std.specs.Prelude.{◌≡◌, ◌≤◌, ◌<◌, ℕ, List, Err, IsTrue, length};
ghost use Rattle.fsb_io.specs.Faults.{Rose};
ghost use Rattle.vcd_grammar.specs.Tokens.{Token};
ghost use Rattle.vcd_scan.specs.Wired.{wires_told};
ghost use Rattle.vcd_joined.specs.Behind.{gathered_in};
ghost use Rattle.vcd_joined.specs.Choosing.{Choice as Taking, choosing, IsTaken};
ghost use Rattle.scope_watch.specs.Heading.{IsReady, StandsBehind};
ghost use Rattle.scope_watch.specs.Watching.{rules_for};
ghost use Rattle.scope_wiring.specs.declared.wiring.Choice.{Choice as ChoiceIs};
ghost use Rattle.scope_check.specs.declared.part.Part.{Part as PartIs};
ghost use Rattle.scope_watch.specs.declared.values.Sampling.{Sampling as SamplingIs};
ghost use Rattle.scope_explain.specs.Explanations.{IsFoundAs, IsFoundOf, IsExplanation, IsExplainedAs};

use crate::explained::Explained;
use crate::explainer::Explainer;
use fsb_io::Source;
use fsb_signal::Marks;
use scope_check::Part;
use scope_watch::{
    Behind, Picked, Sampling, ScopeStop, marks_of, pick_bus, read_header, watch_values,
};
use scope_wiring::Choice;
use std::alloc::Global;
use vcd_joined::picked_wires_choose;
use vcd_scan::Wires;

/// What was found of a dump that was read for its reasons.
#[derive(Debug, Drop)]
pub enum Explanation {
    /// The wires of the bus are not picked.
    Refused,
    /// No phase rule is broken in the part.
    Unbroken,
    Broken(Explained),
}

// What was found, where the wires are picked.
fn explanation_of(found: Option<Explained>) -> Explanation
    ensures { (choice : ChoiceIs) (p : PartIs) (s : SamplingIs) (text : List ℕ) →
        IsFoundOf found choice p s text → IsExplanation result choice p s text }
{
    match found {
        None => Explanation::Unbroken,
        Some(explained) => Explanation::Broken(explained),
    }
}

/// Reads on behind a header to the end of the source, and explains the first broken clock of this part of the wires' values.
fn explain_values<S: Source>(
    alloc: Global,
    source: &mut S,
    room: &mut [u8],
    behind: Behind,
    wires: Wires,
    marks: Marks,
    part: Part,
    sampling: Sampling,
) -> Result<Option<Explained>, ScopeStop>
    requires some { 0 < length room.old }
    requires begun { IsReady behind }
    ensures found { IsTrue S.tells → (c : Taking) (ts : List Token) (text : List ℕ) →
        StandsBehind (rules_for sampling) behind ts text (S.left source.old) →
        IsTaken c (gathered_in (rules_for sampling) ts).header (wires_told wires) →
        IsFoundAs result part marks (choosing c (rules_for sampling)) text }
    ensures read_fault { result ≡ Err ScopeStop.ReadFault →
        Rose (S.faults source.old) (S.faults source.new) }
    ensures later { S.faults source.old ≤ S.faults source.new }
    ensures holds_stays { IsTrue S.tells → S.holds source.new ≡ S.holds source.old }
{
    let mut explainer = Explainer::new(alloc, part, marks)?;
    watch_values(alloc, source, room, behind, wires, sampling, &mut explainer)?;
    Ok(explainer.explaining.explained())
}

/// Begins the source under the name, picks the wires of the bus in its header, and follows this part of their values up to
/// the first clock at which a phase rule is broken, as a waveform of its own: before its first clock there is nothing.
pub fn explained_of<S: Source>(
    alloc: Global,
    name: &str,
    source: &mut S,
    room: &mut [u8],
    choice: &Choice,
    part: Part,
    sampling: Sampling,
) -> Result<Explanation, ScopeStop>
    requires named { length name.now ≤ 4096 }
    requires some { 0 < length room.old }
    ensures explained { IsTrue S.tells →
        IsExplainedAs result choice.now part sampling (S.holds source.old) }
    ensures read_fault { result ≡ Err ScopeStop.ReadFault →
        Rose (S.faults source.old) (S.faults source.new) }
    ensures later { S.faults source.old ≤ S.faults source.new }
    ensures holds_stays { IsTrue S.tells → S.holds source.new ≡ S.holds source.old }
{
    picked_wires_choose();
    let begun = read_header(alloc, name, source, room)?;
    match pick_bus(alloc, &begun.header.variables, choice)? {
        Picked::Refused(_refusal) => Ok(Explanation::Refused),
        Picked::Wired(bus) => {
            let marks = marks_of(&bus.wiring.wires);
            let behind = begun.behind;
            let wires = bus.wires;
            let found = explain_values(alloc, source, room, behind, wires, marks, part, sampling)?;
            Ok(explanation_of(found))
        }
    }
}
