ghost use Rattle.std.specs.Prelude.{◌≡◌, ◌<◌, IfOk, length};

use fsb_access::Log;
use fsb_bus::Bus;
use fsb_hazard::Choice;
use fsb_io::Memory;
use fsb_plan_size::access_count;
use fsb_script::Plan;
use fsb_signal::Sample;
use std::alloc::Global;

/// The entries that there is room for beside those of the scripts: those of one item.
const SPARE: usize = 8;

/// A bench without its objects: a plan, the bus, and what came of the plan so far.
#[derive(Drop)]
pub(crate) struct BareBench {
    pub plan: Plan,
    pub bus: Bus,
    /// One sample for each clock.
    pub trace: Vec<Sample>,
    pub log: Log,
    /// One choice for each request.
    pub choices: Vec<Choice>,
    /// For each clock whether BNR# was asked for.
    pub holds: Vec<bool>,
}

impl BareBench {
    ghost use Rattle.fsb_script.specs.View.{plan_view};
    ghost use Rattle.fsb_bench_view.specs.BenchSteps.{was_held_at};
    ghost use Rattle.fsb_bench_view.specs.FirstBench.{first_bench};
    ghost use Rattle.fsb_core.specs.BareBenches.{IsFit, bare_view};

    /// The bench of a plan before its first clock, with room for all that its clocks can bring.
    pub fn new(alloc: Global, plan: Plan) -> Result<BareBench, Memory>
        ensures view { IfOk result (λ bare.
            bare_view bare ≡ first_bench (plan_view plan)) }
        ensures fit { IfOk result IsFit }
    {
        let clocks = plan.clocks as usize;
        let bus = Bus::new(alloc, &plan, clocks)?;
        let trace = Vec::with_capacity(alloc, clocks)?;
        let log = Log::with_room(alloc, access_count(&plan) as usize + SPARE)?;
        let choices = Vec::with_capacity(alloc, clocks)?;
        let holds = Vec::with_capacity(alloc, clocks)?;
        Ok(BareBench {
            plan,
            bus,
            trace,
            log,
            choices,
            holds,
        })
    }

    /// The next clock.
    pub fn clock(&self) -> u32
        requires { length self.now.trace.items < 4294967296 }
        ensures { result ≡ length self.now.trace.items }
    {
        self.trace.len() as u32
    }

    /// The number of the next request.
    pub fn request_number(&self) -> u32
        requires { length self.now.choices.items < 4294967296 }
        ensures { result ≡ length self.now.choices.items }
    {
        self.choices.len() as u32
    }

    /// Whether BNR# was asked for two clocks before the clock.
    pub fn was_held(&self, clock: u32) -> bool
        ensures { result ≡ was_held_at self.now.holds.items clock }
    {
        if clock < 2 {
            return false;
        }
        match self.holds.get(clock as usize - 2) {
            Some(hold) => *hold,
            None => false,
        }
    }
}
