//! The run of a plan: of that of a bench file, or of the one that a seed makes.
ghost use Rattle.std.specs.Prelude.{◌≡◌, ◌≤◌, IsTrue, length, map};
ghost use Rattle.std.specs.Option.{ForSome, option_map};
ghost use Rattle.fsb_hazard.specs.Told.{told_after};
ghost use Rattle.fsb_play.specs.Printed.{dump_named, printed_text, run_log};
ghost use Rattle.fsb_script.specs.View.{plan_view};
ghost use Rattle.fsb_top.specs.CallEnds.{GenEnds, PlanEnds, RunEnds, dump_call};

use crate::read::read_plan;
use crate::status::Status;
use fsb_hazard::Hazard;
use fsb_io::{Sink, Source};
use fsb_play::{Bench, Print, play};
use fsb_script::{Plan, plan_of};
use std::alloc::Global;

/// Runs the bench file that the source holds under the name, and writes its log and, under the other name, its dump.
pub fn run_file<S: Source, O: Sink, D: Sink>(
    alloc: Global,
    bench: &str,
    name: Option<&str>,
    source: &mut S,
    out: &mut O,
    dump: &mut D,
    hazards: Vec<Box<dyn Hazard>>,
) -> Status
    requires bench { length bench.now ≤ 4096 }
    requires named { ForSome name (λ n. length n.now ≤ 4096) }
    ensures ends { RunEnds S.Source O.Sink (dump_call D.Sink dump.old dump.new)
        source.old source.new out.old out.new
        (λ plan. map (λ h. told_after (is_scripted h) plan.hazards (told h)) hazards.items)
        bench.now (option_map (λ n. n.now) name.entry) result }
    ensures holds_stays { IsTrue S.tells → S.holds source.new ≡ S.holds source.old }
    ensures log_name { IsTrue O.tells → O.begun_as out.new ≡ O.begun_as out.old }
{
    match read_plan(alloc, bench, source) {
        Ok(plan) => run_plan(alloc, plan, name, out, dump, hazards),
        Err(refusal) => Status::from(refusal),
    }
}

// Runs a plan, and writes its log and, where there is a name, its dump.
fn run_plan<O: Sink, D: Sink>(
    alloc: Global,
    plan: Plan,
    name: Option<&str>,
    out: &mut O,
    dump: &mut D,
    hazards: Vec<Box<dyn Hazard>>,
) -> Status
    requires named { ForSome name (λ n. length n.now ≤ 4096) }
    ensures ends { PlanEnds O.Sink (dump_call D.Sink dump.old dump.new) out.old out.new
        (map (λ h. told_after (is_scripted h) plan.hazards (told h)) hazards.items)
        (plan_view plan) run_log (option_map (λ n. n.now) name.entry) result }
    ensures log_name { IsTrue O.tells → O.begun_as out.new ≡ O.begun_as out.old }
{
    match name {
        Some(name) => play_plan(alloc, plan, &Print::LogAndDump(name), out, dump, hazards),
        None => play_plan(alloc, plan, &Print::Log, out, dump, hazards),
    }
}

/// Runs the plan that is made from a seed, for so many agents with so many items each, and writes its summary.
pub fn run_made<O: Sink, D: Sink>(
    alloc: Global,
    seed: u64,
    agents: u8,
    items: u16,
    out: &mut O,
    dump: &mut D,
    hazards: Vec<Box<dyn Hazard>>,
) -> Status
    requires some_agents { 1 ≤ agents }
    requires few_agents { agents ≤ 4 }
    requires some_items { 1 ≤ items }
    requires few_items { items ≤ 4096 }
    ensures ends { GenEnds O.Sink (dump_call D.Sink dump.old dump.new) out.old out.new
        (λ plan. map (λ h. told_after (is_scripted h) plan.hazards (told h)) hazards.items)
        seed agents items result }
    ensures log_name { IsTrue O.tells → O.begun_as out.new ≡ O.begun_as out.old }
{
    let Ok(plan) = plan_of(alloc, seed, agents, items) else {
        return Status::OutOfMemory;
    };
    let print = Print::Summary {
        seed,
        agents,
        items,
    };
    play_plan(alloc, plan, &print, out, dump, hazards)
}

// Makes a bench of a plan and the objects, and plays it.
fn play_plan<O: Sink, D: Sink>(
    alloc: Global,
    plan: Plan,
    print: &Print<'_>,
    out: &mut O,
    dump: &mut D,
    hazards: Vec<Box<dyn Hazard>>,
) -> Status
    requires named { ForSome (dump_named print.now) (λ name. length name ≤ 4096) }
    ensures ends { PlanEnds O.Sink (dump_call D.Sink dump.old dump.new) out.old out.new
        (map (λ h. told_after (is_scripted h) plan.hazards (told h)) hazards.items)
        (plan_view plan) (printed_text print.now) (dump_named print.now) result }
    ensures log_name { IsTrue O.tells → O.begun_as out.new ≡ O.begun_as out.old }
{
    let Ok(mut bench) = Bench::make(alloc, plan, hazards) else {
        return Status::OutOfMemory;
    };
    let played = play(&mut bench, print, out, dump);
    Status::from(played)
}
