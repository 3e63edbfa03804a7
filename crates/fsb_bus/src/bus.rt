ghost use Rattle.std.specs.Prelude.{◌≡◌, ◌≤◌, ◌++◌, ℕ, [], IfOk, true, vec_capacity};

use crate::made::{agents_of, memory_of};
use crate::telling::perform_all;
use arrayvec::ArrayVec;
use fsb_access::Log;
use fsb_agent::Agent;
use fsb_arbiter::Arbiter;
use fsb_bench_view::{Latest, Served, Started};
use fsb_bridge::Bridge;
use fsb_io::Memory;
use fsb_memory::Controller;
use fsb_phase::Phases;
use fsb_queue::Queue;
use fsb_script::Plan;
use std::alloc::Global;

/// Which agents keep the bus locked.
#[derive(Clone, Copy, Debug, PartialEq, Eq)]
pub struct Lock {
    pub kept: [bool; 4],
}

/// Who is on the bus, and what moves on it.
#[derive(Drop)]
pub struct Bus {
    pub agents: Vec<Agent>,
    /// The requests in flight.
    pub queue: Queue,
    pub phases: Phases,
    pub arbiter: Arbiter,
    pub bridge: Bridge,
    pub memory: Controller,
    pub lock: Lock,
    /// Of each request in flight that has its snoop end, in order, which one it serves.
    pub served: ArrayVec<Served, 8>,
    /// The bytes that move since the last response with data.
    pub moved: [u8; 32],
    /// The request that began last.
    pub latest: Option<Latest>,
    /// All requests that have begun, by their numbers.
    pub started: Vec<Started>,
}

impl Bus {
    ghost use Rattle.fsb_bench_view.specs.BusEvents.{bus_performed};
    ghost use Rattle.fsb_bench_view.specs.FirstBench.{first_bus, is_named_line};
    ghost use Rattle.fsb_bench_view.specs.ToldAgents.{hit_entries};
    ghost use Rattle.fsb_memory.specs.Controller.{is_mapped};
    ghost use Rattle.fsb_script.specs.View.{plan_view};
    ghost use Rattle.fsb_bus.specs.Buses.{StandsFor, bus_view};
    ghost use Rattle.fsb_bus.specs.LogRoom.{HasLogRoom};

    /// A quiet bus with the agents and the memory of a plan, and room for so many requests.
    pub fn new(alloc: Global, plan: &Plan, requests: usize) -> Result<Bus, Memory>
        ensures view { IfOk result (λ bus. bus_view bus ≡ first_bus (plan_view plan.now)) }
        ensures stands { IfOk result (λ bus. StandsFor bus []) }
        ensures room { IfOk result (λ bus. requests ≤ vec_capacity bus.started) }
        ensures named { IfOk result (λ bus. (line : ℕ) →
            is_named_line plan.now.scripts line ≡ true → is_mapped bus.memory line ≡ true) }
    {
        Ok(Bus {
            agents: agents_of(alloc, plan)?,
            queue: Queue::new(alloc)?,
            phases: Phases::new(),
            arbiter: Arbiter::new(),
            bridge: Bridge::new(plan.bridge),
            memory: memory_of(alloc, plan)?,
            lock: Lock { kept: [false; 4] },
            served: ArrayVec::new(),
            moved: [0; 32],
            latest: None,
            started: Vec::with_capacity(alloc, requests)?,
        })
    }

    /// The hits of the clock, agent 0 first.
    pub fn perform(&mut self, clock: u32, log: &mut Log)
        requires room { HasLogRoom self.old.agents.items log.old }
        ensures view { bus_view self.new ≡ bus_performed (bus_view self.old) clock }
        ensures entries { log.new.entries
            ≡ log.old.entries ++ hit_entries clock self.old.agents.items }
        ensures room { HasLogRoom self.new.agents.items log.new }
        ensures rest { self.new ≡ record self.old { agents = self.new.agents } }
    {
        perform_all(self.agents.as_mut_slice(), clock, log);
    }
}
