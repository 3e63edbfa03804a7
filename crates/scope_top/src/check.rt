//! `check`: a dump, judged.

ghost use Rattle.std.specs.Prelude.{◌≡◌, ◌≢◌, ◌≤◌, Err, IsTrue, IfErr, IfOk, length};
ghost use Rattle.std.specs.Result.{is_err};
ghost use Rattle.fsb_io.specs.Faults.{Rose};
ghost use Rattle.scope_words.specs.Orders.{KeepsViews, KeepsWires};
ghost use Rattle.scope_top.specs.Ends.{ending_found};
ghost use Rattle.scope_top.specs.Performing.{EndsCheck, EndsJudged, EndsPlanned, edge_of};
ghost use Rattle.scope_top.specs.Viewing.{IsUncopied, MayStop};

use crate::answer::Answer;
use crate::formed::{Report, found_answer};
use crate::listed::{Listed, listed_choice};
use crate::reasons::{reasons_of, sampling_again};
use crate::settled::{Settled, plan_of, settled_part};
use crate::stop::Stop;
use crate::stopped::{PIECE, stop_answer};
use crate::viewed::{Viewed, unviewed, viewed_as};
use crate::views::{same_sampling, show_found};
use fsb_io::{Sink, Source};
use scope_parts::Plan;
use scope_report::{Ending, ending_of, verdict_over};
use scope_tries::{Hint, broken_found, hints_of, tries_of};
use scope_watch::{Checked, Finding, Sampling, check_dump};
use scope_wiring::Choice;
use scope_words::{Format, Part, Views, Wires};
use std::alloc::{AllocError, Global};
use vcd_way::Edge;

/// Judges the parts of a dump that the words name, and tells what was found.
pub(crate) fn check_answer<L: Source, S: Source, V: Sink, C: Sink>(
    alloc: Global,
    name: &str,
    wires: Wires<'_>,
    words: &Part,
    views: Views<'_>,
    is_again: bool,
    named: &mut L,
    dump: &mut S,
    save: &mut V,
    cut: &mut C,
) -> Result<Viewed, Stop>
    requires named { length name.now ≤ 4096 }
    requires wires { KeepsWires wires }
    requires views { KeepsViews views }
    ensures ends { IsTrue L.tells → IsTrue S.tells → IsTrue V.tells → IsTrue C.tells →
        IfOk result (λ v.
        EndsCheck wires.entry words.now (L.holds named.old) (S.holds dump.old) (record {
          name = name.now;
          views = views.entry;
          files = record {
            save_old = V.holds save.old;
            save_new = V.holds save.new;
            cut_old = C.holds cut.old;
            cut_new = C.holds cut.new;
          };
          is_unwritten = is_err v.shown;
        }) v.answer.ending) }
    ensures shown { IfOk result (λ v. IfErr v.shown
        (MayStop (Rose (S.faults dump.old) (S.faults dump.new))
        (Rose (V.faults save.old) (V.faults save.new))
        (IsTrue S.tells → Rose (C.faults cut.old) (C.faults cut.new))
        (IsTrue S.tells → IsTrue C.tells → IsUncopied (S.holds dump.old)))) }
    ensures lines_fault { result ≡ Err Stop.Lines →
        Rose (L.faults named.old) (L.faults named.new) }
    ensures dump_fault { result ≡ Err Stop.Dump → Rose (S.faults dump.old) (S.faults dump.new) }
    ensures not_out { result ≢ Err Stop.Out }
{
    let sampling = Sampling {
        edge: edge_of(wires.edge),
        takes_first: wires.is_first,
        late: wires.after,
    };
    match listed_choice(alloc, wires.choice, wires.file, named)? {
        Listed::Unlisted(answer) => Ok(unviewed(alloc, name, views, answer)?),
        Listed::Chosen(choice) => parted_answer(
            alloc, name, &choice, words, views, is_again, sampling, dump, save, cut,
        ),
    }
}

pub(crate) fn edge_of(edge: scope_words::Edge) -> Edge
    ensures { result ≡ edge_of edge }
{
    match edge {
        scope_words::Edge::Rise => Edge::Rising,
        scope_words::Edge::Fall => Edge::Falling,
    }
}

// Judges the parts that the words name, of a dump whose wires are chosen so.
fn parted_answer<S: Source, V: Sink, C: Sink>(
    alloc: Global,
    name: &str,
    choice: &Choice,
    words: &Part,
    views: Views<'_>,
    is_again: bool,
    sampling: Sampling,
    dump: &mut S,
    save: &mut V,
    cut: &mut C,
) -> Result<Viewed, Stop>
    requires named { length name.now ≤ 4096 }
    requires views { KeepsViews views }
    ensures ends { IsTrue S.tells → IsTrue V.tells → IsTrue C.tells →
        IfOk result (λ v.
        EndsPlanned words.now sampling (S.holds dump.old) (record {
          name = name.now;
          views = views.entry;
          files = record {
            save_old = V.holds save.old;
            save_new = V.holds save.new;
            cut_old = C.holds cut.old;
            cut_new = C.holds cut.new;
          };
          is_unwritten = is_err v.shown;
        }) choice.now v.answer.ending) }
    ensures shown { IfOk result (λ v. IfErr v.shown
        (MayStop (Rose (S.faults dump.old) (S.faults dump.new))
        (Rose (V.faults save.old) (V.faults save.new))
        (IsTrue S.tells → Rose (C.faults cut.old) (C.faults cut.new))
        (IsTrue S.tells → IsTrue C.tells → IsUncopied (S.holds dump.old)))) }
    ensures not_lines { result ≢ Err Stop.Lines }
    ensures dump_fault { result ≡ Err Stop.Dump → Rose (S.faults dump.old) (S.faults dump.new) }
    ensures not_out { result ≢ Err Stop.Out }
{
    match settled_part(alloc, name, words, dump)? {
        Settled::Unsettled(answer) => Ok(unviewed(alloc, name, views, answer)?),
        Settled::Part(first) => {
            let plan = plan_of(words, first);
            judged_answer(
                alloc, name, choice, plan, views, is_again, sampling, dump, save, cut,
            )
        }
    }
}

// Judges these parts of a dump, whose wires are chosen so.
fn judged_answer<S: Source, V: Sink, C: Sink>(
    alloc: Global,
    name: &str,
    choice: &Choice,
    plan: Plan,
    views: Views<'_>,
    is_again: bool,
    sampling: Sampling,
    dump: &mut S,
    save: &mut V,
    cut: &mut C,
) -> Result<Viewed, Stop>
    requires named { length name.now ≤ 4096 }
    requires views { KeepsViews views }
    ensures ends { IsTrue S.tells → IsTrue V.tells → IsTrue C.tells →
        IfOk result (λ v.
        EndsJudged choice.now plan sampling (S.holds dump.old) (record {
          name = name.now;
          views = views.entry;
          files = record {
            save_old = V.holds save.old;
            save_new = V.holds save.new;
            cut_old = C.holds cut.old;
            cut_new = C.holds cut.new;
          };
          is_unwritten = is_err v.shown;
        }) v.answer.ending) }
    ensures shown { IfOk result (λ v. IfErr v.shown
        (MayStop (Rose (S.faults dump.old) (S.faults dump.new))
        (Rose (V.faults save.old) (V.faults save.new))
        (IsTrue S.tells → Rose (C.faults cut.old) (C.faults cut.new))
        (IsTrue S.tells → IsTrue C.tells → IsUncopied (S.holds dump.old)))) }
    ensures not_lines { result ≢ Err Stop.Lines }
    ensures dump_fault { result ≡ Err Stop.Dump → Rose (S.faults dump.old) (S.faults dump.new) }
    ensures not_out { result ≢ Err Stop.Out }
{
    let again = Again {
        tries: tries_of(is_again, &sampling),
        sampling: sampling_again(is_again, &sampling),
    };
    let same = same_sampling(&sampling)?;
    let mut room = vec![in alloc; 0; PIECE]?;
    match check_dump(alloc, name, dump, &mut room, choice, plan, sampling) {
        Err(stop) => {
            let answer = stop_answer(alloc, name, stop)?;
            Ok(unviewed(alloc, name, views, answer)?)
        }
        Ok(checked) => {
            let answer = tried_answer(
                alloc,
                views.format,
                name,
                choice,
                plan,
                again,
                &same,
                &checked,
                dump,
            )?;
            let shown = show_found(alloc, name, choice, &same, views, &checked, dump, save, cut);
            let is_broken = broken_found(&checked.finding).is_some();
            Ok(viewed_as(alloc, name, views, is_broken, answer, shown)?)
        }
    }
}

// How a rejected dump is read again, where it is.
#[derive(Drop)]
struct Again {
    // The edge at which other ways to sample it are tried.
    tries: Option<Edge>,
    // How it is sampled once more for the reasons.
    sampling: Option<Sampling>,
}

// Tells what was found, and of a rejected dump the reasons, and in which other ways it gets further, where it is read again.
fn tried_answer<S: Source>(
    alloc: Global,
    format: Format,
    name: &str,
    choice: &Choice,
    plan: Plan,
    again: Again,
    sampling: &Sampling,
    checked: &Checked,
    dump: &mut S,
) -> Result<Answer, AllocError>
    requires { length name.now ≤ 4096 }
    ensures ending { IfOk result (λ answer. answer.ending ≡ ending_found checked.now.finding) }
    ensures later { S.faults dump.old ≤ S.faults dump.new }
    ensures holds_stays { IsTrue S.tells → S.holds dump.new ≡ S.holds dump.old }
{
    let tries = again.tries;
    let found = &checked.finding;
    let grounds = reasons_of(alloc, name, choice, plan.first, again.sampling, found, dump);
    let hints = hints_found(alloc, name, choice, plan, tries, found, dump);
    let report = Report {
        name,
        choice,
        sampling,
        checked,
        grounds: &grounds,
        hints: &hints,
    };
    found_answer(alloc, format, &report)
}

// In which other ways a rejected dump gets further, where it is read again. Where memory lacks for that, or reading fails,
// there are none: the verdict stands without them.
fn hints_found<S: Source>(
    alloc: Global,
    name: &str,
    choice: &Choice,
    plan: Plan,
    tries: Option<Edge>,
    found: &Finding,
    dump: &mut S,
) -> Vec<Hint>
    requires { length name.now ≤ 4096 }
    ensures later { S.faults dump.old ≤ S.faults dump.new }
    ensures holds_stays { IsTrue S.tells → S.holds dump.new ≡ S.holds dump.old }
{
    match (tries, broken_found(found)) {
        (Some(edge), Some(broken)) => {
            hints_of(alloc, name, choice, plan, edge, broken, dump).unwrap_or(Vec::new(alloc))
        }
        _ => Vec::new(alloc),
    }
}

/// How a check ends that found this.
pub fn ending_found(finding: &Finding) -> Ending
    ensures { result ≡ ending_found finding.now }
{
    match finding {
        Finding::Refused(_) => Ending::Unjudged,
        Finding::Judged(_, told) => ending_of(&verdict_over(&told.judged)),
    }
}
