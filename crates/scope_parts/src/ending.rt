//! When a segment ends.

ghost use Rattle.std.specs.Prelude.{◌≡◌, ◌≤◌, ◌+◌, if◌then◌else◌};
ghost use Rattle.vcd_course.specs.Told.{event_told};
ghost use Rattle.scope_parts.specs.declared.finding.End.TheVariants as ends;
ghost use Rattle.scope_parts.specs.Endings.{breaks_18_last, breaks_one, ending, ends_at_hole, ends_at_reply, ends_broken, is_accepted};
ghost use Rattle.scope_parts.specs.Findings.{broken_clock};
ghost use Rattle.scope_parts.specs.Segments.{shifted};
ghost use Rattle.scope_parts.specs.Standing.{clock_in, kept_at};

use crate::finding::End;
use crate::plan::Plan;
use scope_check::{Judged, Verdict};
use vcd_course::{CourseEvent, Told};

fn is_accepted(verdict: &Verdict) -> bool
    ensures { result ≡ is_accepted verdict.now }
{
    match *verdict {
        Verdict::Accepted => true,
        Verdict::Nothing | Verdict::Broken { .. } => false,
    }
}

fn breaks_one(verdict: &Verdict) -> bool
    ensures { result ≡ breaks_one verdict.now }
{
    match *verdict {
        Verdict::Broken { .. } => true,
        Verdict::Nothing | Verdict::Accepted => false,
    }
}

/// The clock of a broken rule.
pub(crate) fn broken_clock(verdict: &Verdict) -> Option<u64>
    ensures { result ≡ broken_clock verdict.now }
{
    match *verdict {
        Verdict::Broken { clock, .. } => Some(clock),
        Verdict::Nothing | Verdict::Accepted => None,
    }
}

/// The same, numbered behind so many others, in a dump that has so many up to there.
pub(crate) fn broken_behind(base: u64, verdict: &Verdict, clocks: u64) -> Option<u64>
    ensures { base + clock_in verdict.now ≤ clocks →
        result ≡ broken_clock (shifted base verdict.now) }
{
    match *verdict {
        Verdict::Broken { clock, .. } => Some(base.saturating_add(clock).min(clocks)),
        Verdict::Nothing | Verdict::Accepted => None,
    }
}

fn breaks_18_last(clocks: u64, verdict: &Verdict) -> bool
    ensures { result ≡ breaks_18_last clocks verdict.now }
{
    match *verdict {
        Verdict::Broken { clock, rule, .. } => rule == 18 && clock < clocks && clock + 1 == clocks,
        Verdict::Nothing | Verdict::Accepted => false,
    }
}

fn ends_at_hole(found: &Judged, event: &CourseEvent) -> bool
    ensures { result ≡ ends_at_hole found.now (event_told event.now) }
{
    let start = found.start;
    let judged = found.judged;
    match event.told {
        Told::Sampled(_) => false,
        Told::Hole | Told::Resumed => {
            is_accepted(&found.verdict) && found.clocks == u64::from(start) + u64::from(judged)
        }
    }
}

fn ends_broken(plan: &Plan, broken: u32, found: &Judged) -> bool
    ensures { result ≡ ends_broken plan.now broken found.now }
{
    let most = plan.most;
    breaks_one(&found.verdict) && u64::from(broken) + 1 < u64::from(most)
}

fn ends_at_reply(found: &Judged, event: &CourseEvent) -> bool
    ensures { result ≡ ends_at_reply found.now (event_told event.now) }
{
    match event.told {
        Told::Sampled(_) => {
            found.is_later && found.answers_before && breaks_18_last(found.clocks, &found.verdict)
        }
        Told::Hole | Told::Resumed => false,
    }
}

/// Why the segment ends with this event: so many parts were broken before, and this was found up to it.
pub(crate) fn ending(plan: &Plan, broken: u32, found: &Judged, event: &CourseEvent) -> Option<End>
    ensures { result ≡ ending plan.now broken found.now (event_told event.now) }
{
    if ends_at_reply(found, event) {
        Some(End::Reply)
    } else if ends_broken(plan, broken, found) {
        Some(End::Broken)
    } else if ends_at_hole(found, event) {
        Some(End::Hole)
    } else {
        None
    }
}

/// How the last segment ends.
pub(crate) fn last_end(found: &Judged) -> End
    ensures { result ≡ (if breaks_one found.now.verdict then ends.Broken else ends.Dump) }
{
    if breaks_one(&found.verdict) {
        End::Broken
    } else {
        End::Dump
    }
}

/// What is judged of a segment that ends so: up to its end, or before a reply.
pub(crate) fn kept_at(end: End, found: Judged, before: Judged) -> Judged
    ensures { result ≡ kept_at end found before }
{
    match end {
        End::Reply => before,
        End::Dump | End::Hole | End::Broken => found,
    }
}
