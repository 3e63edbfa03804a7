//! What a table finds in worked runs.

ghost use Rattle.std.specs.Prelude.{◌^◌, ◌<◌, length};

use fsb_owner_feed::Table;
use rows_store::{
    CANCELLED_BY_ADDRESS_ERROR, Clock, DEFERRED_AND_REPLIED, DIRTY_VICTIM_WRITTEN_BACK,
    STALLED_SNOOP, STORE_HANDED_OVER_BEFORE_ARRIVAL, TWO_AGENTS_OVERLAP, WRITE_BACK_HELD_OFF,
    sample,
};
use std::alloc::Global;
use std::process::Abort;

/// A live request's first clock, snoop end, response and end.
type Numbers = (u32, u32, u32, u32);

/// The first clock of the request that has its snoop end, its response and its end at this clock.
fn told(numbers: &[Numbers], clock: u32) -> (Option<u32>, Option<u32>, Option<u32>) {
    let mut told = (None, None, None);
    for &(first, snoop, response, end) in numbers {
        if snoop == clock {
            told.0 = Some(first);
        }
        if response == clock {
            told.1 = Some(first);
        }
        if end == clock {
            told.2 = Some(first);
        }
    }
    told
}

/// Asserts that a table finds these numbers in the run, and these requests in their second clocks.
fn expect_found(
    rt: &impl Abort,
    alloc: Global,
    clocks: &[Clock],
    numbers: &[Numbers],
    begun: &[u32],
)
    requires { length clocks.now < 2 ^ 32 }
{
    let mut table = Table::new(alloc);
    for at in 0..clocks.len() {
        let happened = table.feed(&sample(clocks[at])).expect(rt, "out of memory");
        let (snooped, answered, ended) = told(numbers, happened.clock);
        assert!(rt; happened.clock as usize == at);
        assert!(rt; happened.snooped == snooped);
        assert!(rt; happened.answered == answered);
        assert!(rt; happened.ended == ended);
        let first = happened.clock.saturating_sub(1);
        assert!(rt; happened.begun.is_some() == (at > 0 && begun.contains(&first)));
    }
}

#[test]
fn found_in_worked_runs(rt: HostRuntime) {
    let a = rt.alloc();
    expect_found(
        &rt,
        a,
        &TWO_AGENTS_OVERLAP,
        &[(2, 6, 8, 11), (5, 9, 12, 15)],
        &[2, 5],
    );
    let handed = [(2, 6, 8, 11), (5, 9, 14, 17)];
    expect_found(&rt, a, &STORE_HANDED_OVER_BEFORE_ARRIVAL, &handed, &[2, 5]);
    expect_found(&rt, a, &STALLED_SNOOP, &[(2, 10, 12, 15)], &[2]);
    expect_found(
        &rt,
        a,
        &CANCELLED_BY_ADDRESS_ERROR,
        &[(8, 12, 14, 17)],
        &[2, 8],
    );
    let deferred = [
        (2, 6, 8, 8),
        (5, 9, 11, 11),
        (14, 18, 20, 20),
        (21, 25, 27, 30),
        (24, 28, 31, 34),
    ];
    expect_found(
        &rt,
        a,
        &DEFERRED_AND_REPLIED,
        &deferred,
        &[2, 5, 14, 21, 24],
    );
    let held_off = [(2, 6, 8, 11), (13, 17, 21, 24), (18, 22, 25, 28)];
    expect_found(&rt, a, &WRITE_BACK_HELD_OFF, &held_off, &[2, 13, 18]);
    let written = [
        (2, 6, 8, 11),
        (14, 18, 22, 25),
        (28, 32, 34, 37),
        (40, 44, 46, 49),
    ];
    expect_found(
        &rt,
        a,
        &DIRTY_VICTIM_WRITTEN_BACK,
        &written,
        &[2, 14, 28, 40],
    );
}
