//! The arbiter over whole runs, clock by clock.

ghost use Rattle.std.specs.Prelude.{◌<◌, ◌^◌, length};

use fsb_arbiter::Arbiter;
use fsb_io::Memory;
use fsb_signal::Lines;
use fsb_trace::{Who, requests};
use rows_store::{
    ADS, CANCELLED_BY_ADDRESS_ERROR, Clock, DEFERRED_AND_REPLIED, LOCKED_INCREMENTS, STALLED_SNOOP,
    TWO_AGENTS_OVERLAP, WRITE_BACK_HELD_OFF, sample, trace,
};
use std::alloc::Global;
use std::process::Abort;

/// The winner at the next clock after these, by the definition: that of a request that begins there.
fn next_winner(alloc: Global, clocks: &[Clock]) -> Result<Option<Who>, Memory>
    requires { length clocks.now < 2 ^ 31 }
{
    let mut w = trace(alloc, clocks)?;
    w.push(sample((ADS, 0, 0)))?;
    let seen = requests(alloc, &w)?;
    Ok(match seen.last() {
        Some(last) => last.who,
        None => None,
    })
}

/// Asserts that the arbiter's winner is the definition's at each clock of the run and at the one after it, and that
/// these are the requests and their winners.
fn expect_winners(rt: &impl Abort, alloc: Global, clocks: &[Clock], begun: &[(usize, Who)])
    requires { length clocks.now < 2 ^ 31 }
{
    let mut arbiter = Arbiter::new();
    let mut next = 0;
    for (c, &clock) in clocks.iter().enumerate() {
        let winner = next_winner(alloc, &clocks[..c]).expect(rt, "out of memory");
        assert!(rt; arbiter.winner() == winner);
        let taken = sample(clock);
        if taken.has(Lines::ADS) && next < begun.len() {
            assert!(rt; begun[next].0 == c);
            assert!(rt; arbiter.winner() == Some(begun[next].1));
            next += 1;
        }
        arbiter.absorb(&taken);
    }
    assert!(rt; next == begun.len());
    let winner = next_winner(alloc, clocks).expect(rt, "out of memory");
    assert!(rt; arbiter.winner() == winner);
}

#[test]
fn two_agents_overlap(rt: HostRuntime) {
    let begun = [(2, Who::Symmetric(0)), (5, Who::Symmetric(1))];
    expect_winners(&rt, rt.alloc(), &TWO_AGENTS_OVERLAP, &begun);
}

#[test]
fn stalled_snoop(rt: HostRuntime) {
    expect_winners(&rt, rt.alloc(), &STALLED_SNOOP, &[(2, Who::Symmetric(0))]);
}

#[test]
fn cancelled_by_address_error(rt: HostRuntime) {
    let begun = [(2, Who::Symmetric(0)), (8, Who::Symmetric(0))];
    expect_winners(&rt, rt.alloc(), &CANCELLED_BY_ADDRESS_ERROR, &begun);
}

#[test]
fn deferred_and_replied(rt: HostRuntime) {
    let begun = [
        (2, Who::Symmetric(0)),
        (5, Who::Symmetric(1)),
        (14, Who::Symmetric(1)),
        (21, Who::Priority),
        (24, Who::Symmetric(1)),
    ];
    expect_winners(&rt, rt.alloc(), &DEFERRED_AND_REPLIED, &begun);
}

#[test]
fn locked_increments(rt: HostRuntime) {
    let begun = [(2, Who::Symmetric(0)), (14, Who::Symmetric(1))];
    expect_winners(&rt, rt.alloc(), &LOCKED_INCREMENTS, &begun);
}

#[test]
fn write_back_held_off(rt: HostRuntime) {
    let begun = [
        (2, Who::Symmetric(0)),
        (13, Who::Symmetric(1)),
        (18, Who::Symmetric(0)),
    ];
    expect_winners(&rt, rt.alloc(), &WRITE_BACK_HELD_OFF, &begun);
}
