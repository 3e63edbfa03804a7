//! What may have come before a part that begins later.

use fsb_arbiter::Arbiter;
use fsb_signal::{Lines, Marks, Sample};
use fsb_trace::{Who, verdict};
use scope_later::history_of;

#[test]
fn each_history_is_accepted(rt: HostRuntime) {
    for agent in 0..4 {
        let history = history_of(agent);
        for (ap, rp) in [(false, false), (false, true), (true, false), (true, true)] {
            assert!(rt; verdict(Marks { ap, rp }, &history).is_none(), "{agent}");
        }
    }
}

#[test]
fn behind_each_history_the_next_agent_comes_first(rt: HostRuntime) {
    let asking = Sample::known(Lines(15), 0, 0, 0);
    for (agent, next) in [(0, 1), (1, 2), (2, 3), (3, 0)] {
        let mut arbiter = Arbiter::new();
        for sample in history_of(agent).iter() {
            arbiter.absorb(sample);
        }
        for _ in 0..2 {
            arbiter.absorb(&asking);
        }
        assert!(rt; arbiter.winner() == Some(Who::Symmetric(next)), "{agent}");
    }
}
