ghost use Rattle.std.specs.Prelude.{◌≡◌, ◌<◌, ◌≤◌, ◌++◌, [], ◌∷◌, Bool, None, IfOk, IfSome, IfErr, OnOk, OnErr, OnSome, length, map, nat_le, is_none, slice_get};
ghost use Rattle.std.specs.List.{remove};
ghost use Rattle.std.specs.Option.{option_map};
ghost use Rattle.fsb_hazard.specs.Told.{told_after};
ghost use Rattle.fsb_script.specs.View.{plan_view};
ghost use Rattle.fsb_bench_view.specs.FirstBench.{first_bench};
ghost use Rattle.fsb_bench_values.specs.BenchOf.{IsBenchOf};
ghost use Rattle.fsb_bench_values.specs.BytesOf.{HasBytesOf};
ghost use Rattle.fsb_bench_values.specs.Lent.{bytes_lent, lines_lent, state_lent};
ghost use Rattle.fsb_core.specs.Stepping.{HasClockLeft, IsAskedNext, IsStepped};
ghost use Rattle.fsb_core.specs.BareBenches.{IsFit, bare_view};
ghost use Rattle.fsb_signal.specs.Parity.{marks_in};
ghost use Rattle.fsb_timely.specs.Carried.{Carried};
ghost use Rattle.fsb_timely.specs.Kept.{Kept};
ghost use Rattle.fsb_timely.specs.Simulated.{Simulated};
ghost use Rattle.fsb_trace.specs.Verdict.{verdict};

use crate::asking::loaded;
use crate::bare::BareBench;
use fsb_access::Done;
use fsb_cache::Cache;
use fsb_hazard::{Choice, Hazard};
use fsb_io::Memory;
use fsb_memory::Controller;
use fsb_script::Plan;
use fsb_signal::Sample;
use std::alloc::Global;

/// A plan, run clock by clock, with the hazard objects that stand on it.
///
/// Whatever the objects answer, and whenever they are plugged and unplugged, at every clock the run
/// so far is a simulation ([`Bench::is_simulated`]), caches and memory have what its log makes of
/// them ([`Bench::keeps_its_lines`]), and its trace breaks no phase rule
/// ([`Bench::breaks_no_rule`]).
#[derive(Drop)]
pub struct Bench {
    bare: BareBench,
    hazards: Vec<Box<dyn Hazard>>,
    ghost fit: { IsFit bare },
    ghost stands: { ∥ IsBenchOf (bare_view bare) ∥₁ },
    ghost bytes: { HasBytesOf (bare_view bare) },
    ghost carried: { Carried (bare_view bare).run },
}

impl Bench {
    ghost use Rattle.fsb_core.specs.Benches.{cache_of, mapped_lines, object_room, objects_of, bench_view};

    /// A bench for the plan, before its first clock. Each object is given the plan's hazard lines,
    /// in order. All the memory that the plan's clocks need is taken here. Where there is none, the
    /// plan and the objects are dropped.
    pub fn make(alloc: Global, plan: Plan, hazards: Vec<Box<dyn Hazard>>) -> Result<Bench, Memory>
        ensures first { IfOk result (λ bench. bench_view bench ≡ first_bench (plan_view plan)) }
        ensures told { IfOk result (λ bench. map (λ h. told h) (objects_of bench)
            ≡ map (λ h. told_after (is_scripted h) plan.hazards (told h)) hazards.items) }
        ensures kinds { IfOk result (λ bench. map (λ h. is_scripted h) (objects_of bench)
            ≡ map (λ h. is_scripted h) hazards.items) }
    {
        let hazards = loaded(hazards, plan.hazards.as_slice())?;
        let bare = BareBench::new(alloc, plan)?;
        Ok(Bench { bare, hazards })
    }

    /// One clock: the objects that stand at it are asked, and the bench is what the clock makes of
    /// it. The run has one more sample and one more hold, one more choice exactly where a request
    /// begins, and the entries of the clock; what it had before stays. A step takes no memory and has
    /// no refusal.
    pub fn step(&mut self)
        requires { HasClockLeft (bench_view self.old) }
        ensures stepped { IsStepped (map (λ h. told h) (objects_of self.old)) (bench_view self.old)
            (bench_view self.new) }
        ensures asked { IsAskedNext (map (λ h. told h) (objects_of self.old))
            (bench_view self.old).run (bench_view self.new).run }
        ensures told_stays { map (λ h. told h) (objects_of self.new)
            ≡ map (λ h. told h) (objects_of self.old) }
        ensures kinds_stay { map (λ h. is_scripted h) (objects_of self.new)
            ≡ map (λ h. is_scripted h) (objects_of self.old) }
        ensures room_stays { object_room self.new ≡ object_room self.old }
    {
        self.bare.advance(&mut self.hazards);
    }

    /// The run so far is a simulation, whatever the objects answered and whenever they came and went:
    /// it is timely; its log is, for each agent, a first part of its script; one byte memory that
    /// serves the accesses of the log singly, in order, gives exactly their values; and the data on
    /// the bus are that memory's. The call does nothing.
    pub fn is_simulated(&self)
        ensures { Simulated (bench_view self.now).run }
    {}

    /// The caches that are lent and memory have what the log makes of their lines: a line that an
    /// agent holds, and that is ready, is in its cache with its state and with the bytes that it has
    /// after the log; one that an agent does not hold is Invalid there; and memory has what was put
    /// into it last. The call does nothing.
    pub fn keeps_its_lines(&self)
        ensures { Kept (bench_view self.now).run (state_lent (bench_view self.now))
            (bytes_lent (bench_view self.now)) (bench_view self.now).bus.memory }
    {}

    /// The trace so far breaks no phase rule. The call does nothing.
    pub fn breaks_no_rule(&self)
        ensures { verdict (marks_in (bench_view self.now).run.plan.profile)
            (bench_view self.now).run.trace ≡ None }
    {}

    /// The plan that is run.
    pub fn plan(&self) -> &Plan
        ensures { plan_view result.now ≡ (bench_view self.now).run.plan }
    {
        &self.bare.plan
    }

    /// The next clock.
    pub fn clock(&self) -> u32
        ensures { result ≡ length (bench_view self.now).run.trace }
    {
        self.bare.trace.len() as u32
    }

    /// The samples of the clocks so far.
    pub fn trace(&self) -> &[Sample]
        ensures { result.now ≡ (bench_view self.now).run.trace }
    {
        self.bare.trace.as_slice()
    }

    /// The accesses that were completed so far.
    pub fn log(&self) -> &[Done]
        ensures { result.now ≡ (bench_view self.now).run.log }
    {
        self.bare.log.as_slice()
    }

    /// What was chosen for each request so far.
    pub fn choices(&self) -> &[Choice]
        ensures { result.now ≡ (bench_view self.now).run.choices }
    {
        self.bare.choices.as_slice()
    }

    /// Of each clock so far whether BNR# was asked for.
    pub fn holds(&self) -> &[bool]
        ensures { result.now ≡ (bench_view self.now).run.holds }
    {
        self.bare.holds.as_slice()
    }

    /// The cache of an agent; none where the plan has no agent of that number.
    pub fn cache(&self, agent: u8) -> Option<&Cache>
        ensures cache { option_map (λ cache. cache.now) result
            ≡ cache_of (bench_view self.now) agent }
        ensures lent { IfSome result (λ cache. cache.now ≡ lines_lent (bench_view self.now) agent) }
        ensures none { is_none result
            ≡ nat_le (length (bench_view self.now).run.plan.scripts) agent }
    {
        let number = usize::from(agent);
        if number < self.bare.plan.scripts.as_slice().len() {
            match self.bare.bus.agents.get(number) {
                Some(agent) => Some(agent.cache()),
                None => None,
            }
        } else {
            None
        }
    }

    /// The memory controller.
    pub fn memory(&self) -> &Controller
        ensures { result.now ≡ mapped_lines self.now }
    {
        &self.bare.bus.memory
    }

    /// Adds an object as the last one, which is asked from the next step on, and is given no lines.
    /// It is refused only where no room is left. After a refusal nothing changed, and the object is
    /// given back.
    pub fn plug(&mut self, hazard: Box<dyn Hazard>) -> Result<(), (Memory, Box<dyn Hazard>)>
        ensures plugged { OnOk result (objects_of self.new ≡ objects_of self.old ++ hazard ∷ []) }
        ensures refused { OnErr result (objects_of self.new ≡ objects_of self.old) }
        ensures given_back { IfErr result (λ refused. refused.1 ≡ hazard) }
        ensures full { OnErr result (object_room self.old ≤ length (objects_of self.old)) }
        ensures room { object_room self.old ≤ object_room self.new }
        ensures view { bench_view self.new ≡ bench_view self.old }
    {
        match self.hazards.push(hazard) {
            Ok(()) => Ok(()),
            Err(refused) => Err((Memory, refused.value)),
        }
    }

    /// Takes out the object at this place, and those behind it close up; none where there are no
    /// more than `i`. The room stays, so where one was taken out the next one is not refused.
    pub fn unplug(&mut self, i: usize) -> Option<Box<dyn Hazard>>
        ensures object { result ≡ slice_get (objects_of self.old) i }
        ensures objects { objects_of self.new ≡ remove (objects_of self.old) i }
        ensures room { object_room self.new ≡ object_room self.old }
        ensures spare { OnSome result (length (objects_of self.new) < object_room self.new) }
        ensures view { bench_view self.new ≡ bench_view self.old }
    {
        if i < self.hazards.len() {
            Some(self.hazards.remove(i))
        } else {
            None
        }
    }
}
