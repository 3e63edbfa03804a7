//! What is decided at a clock before its sample is made.

ghost use Rattle.std.specs.Prelude.{◌≡◌, ◌<◌, length};
ghost use Rattle.fsb_bench_view.specs.BusDecisions.{asked_by, cancelled_by, bus_decided, is_cancelled_by};
ghost use Rattle.fsb_bus.specs.Buses.{bus_view};

use crate::bus::Bus;
use crate::telling::want_at;
use fsb_bench_view::{AskedFor, Decided};
use fsb_phase::Drive;
use fsb_queue::Entry;
use fsb_trace::Who;

impl Bus {
    /// What is decided at the clock after the hits: this is the winner, this is driven, BNR# is
    /// asked for or not, and was two clocks before or not.
    pub fn decide(
        &self,
        winner: Option<Who>,
        clock: u32,
        drive: Drive,
        hold: bool,
        was_held: bool,
    ) -> Decided
        requires { length self.now.agents.items < 256 }
        ensures { result ≡ bus_decided (bus_view self.now) winner clock drive hold was_held }
    {
        let asked = self.asked(clock);
        Decided {
            hold,
            drive,
            asked,
            starting: self.starting(winner, clock, &asked, was_held),
            cancelled: self.cancelled(clock),
            snooped: self.snooped(&drive),
        }
    }

    /// What is asked for at the clock.
    fn asked(&self, clock: u32) -> AskedFor
        ensures { result ≡ asked_by (bus_view self.now) clock }
    {
        let agents = self.agents.as_slice();
        AskedFor {
            wants: [
                want_at(agents, 0, clock),
                want_at(agents, 1, clock),
                want_at(agents, 2, clock),
                want_at(agents, 3, clock),
            ],
            due: self.bridge.due(clock),
        }
    }

    /// The request that an address error cancels at the clock.
    fn cancelled(&self, clock: u32) -> Option<Entry>
        ensures { result ≡ cancelled_by (bus_view self.now) clock }
    {
        self.queue
            .iter()
            .find(|entry| is_cancelled_by(clock, entry))
            .copied()
    }
}

/// Whether the entry began three clocks before, and is to be cancelled.
fn is_cancelled_by(clock: u32, entry: &Entry) -> bool
    ensures { result ≡ is_cancelled_by clock entry.now }
{
    entry.choice.aerr && u64::from(entry.clock) + 3 == u64::from(clock)
}
