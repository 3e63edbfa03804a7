//! The time of a clock, read in a dump.

ghost use Rattle.std.specs.Prelude.{◌≡◌, ◌≤◌, ◌<◌, ℕ, List, IsTrue, IfOk, IfErr, IfSome, Ok, Err, None, length};
ghost use Rattle.fsb_io.specs.Faults.{Rose};
ghost use Rattle.vcd_grammar.specs.Tokens.{Token};
ghost use Rattle.vcd_scan.specs.Wired.{wires_told};
ghost use Rattle.vcd_joined.specs.Behind.{gathered_in};
ghost use Rattle.vcd_joined.specs.Choosing.{Choice as Taking, choosing, IsTaken};
ghost use Rattle.scope_watch.specs.Heading.{IsReady, StandsBehind};
ghost use Rattle.scope_watch.specs.Watching.{rules_for};
ghost use Rattle.scope_clock.specs.Times.{HasNoTime, IsClockTime, IsTimedBy, IsUntimed};

use crate::timer::Timer;
use fsb_io::Source;
use scope_watch::{Behind, Picked, Sampling, ScopeStop, pick_bus, read_header, watch_values};
use scope_wiring::Choice;
use std::alloc::Global;
use vcd_joined::picked_wires_choose;
use vcd_scan::Wires;

/// Reads on behind a header to the end of the source: the time of the clock of this number, if there is one.
fn time_behind<S: Source>(
    alloc: Global,
    source: &mut S,
    room: &mut [u8],
    behind: Behind,
    wires: Wires,
    sampling: Sampling,
    clock: u64,
) -> Result<Option<u64>, ScopeStop>
    requires some { 0 < length room.old }
    requires begun { IsReady behind }
    ensures timed { IsTrue S.tells → (c : Taking) (ts : List Token) (text : List ℕ) →
        StandsBehind (rules_for sampling) behind ts text (S.left source.old) →
        IsTaken c (gathered_in (rules_for sampling) ts).header (wires_told wires) →
        IsTimedBy result (choosing c (rules_for sampling)) clock text }
    ensures read_fault { result ≡ Err ScopeStop.ReadFault →
        Rose (S.faults source.old) (S.faults source.new) }
    ensures later { S.faults source.old ≤ S.faults source.new }
    ensures name_stays { IsTrue S.tells → S.begun_as source.new ≡ S.begun_as source.old }
    ensures holds_stays { IsTrue S.tells → S.holds source.new ≡ S.holds source.old }
{
    let mut timer = Timer::new(clock);
    watch_values(alloc, source, room, behind, wires, sampling, &mut timer)?;
    Ok(timer.time)
}

/// The time of the edge of the clock of this number, in steps of the dump, whose wires are chosen so. `None` exactly where the
/// wires are not picked or the dump has no such clock.
pub fn clock_time<S: Source>(
    alloc: Global,
    name: &str,
    source: &mut S,
    room: &mut [u8],
    choice: &Choice,
    sampling: Sampling,
    clock: u64,
) -> Result<Option<u64>, ScopeStop>
    requires named { length name.now ≤ 4096 }
    requires some { 0 < length room.old }
    ensures timed { IsTrue S.tells → IfOk result (λ time.
        IfSome time (IsClockTime choice.now sampling (S.holds source.old) clock)) }
    ensures none { IsTrue S.tells → result ≡ Ok None →
        HasNoTime choice.now sampling (S.holds source.old) clock }
    ensures stop { IsTrue S.tells → IfErr result (λ stop.
        IsUntimed stop choice.now sampling (S.holds source.old)) }
    ensures read_fault { result ≡ Err ScopeStop.ReadFault →
        Rose (S.faults source.old) (S.faults source.new) }
    ensures later { S.faults source.old ≤ S.faults source.new }
    ensures holds_stays { IsTrue S.tells → S.holds source.new ≡ S.holds source.old }
{
    picked_wires_choose();
    let begun = read_header(alloc, name, source, room)?;
    match pick_bus(alloc, &begun.header.variables, choice)? {
        Picked::Refused(_) => Ok(None),
        Picked::Wired(bus) => {
            let behind = begun.behind;
            let wires = bus.wires;
            time_behind(alloc, source, room, behind, wires, sampling, clock)
        }
    }
}
