//! Words over a test of a clock, as calls.

use fsb_count::{any_where, count_where, first_where, nth_where};

/// So many clocks, the first of them that passes, and how many pass.
type Clocks = (usize, Option<usize>, usize);

const CLOCKS: [Clocks; 5] = [
    (0, None, 0),
    (2, None, 0),
    (3, Some(2), 1),
    (8, Some(2), 2),
    (9, Some(2), 3),
];

/// Whether that many clocks pass, and which first.
fn passes(row: &Clocks) -> bool {
    let &(clocks, first, count) = row;
    let test = |c: usize| c % 3 == 2;
    first_where(clocks, test) == first
        && any_where(clocks, test) == first.is_some()
        && count_where(clocks, test) == count
}

/// Which of those that pass, from 0 on, the clocks, and the clock.
type Nth = (usize, usize, Option<usize>);

const NTH: [Nth; 3] = [(0, 9, Some(2)), (2, 9, Some(8)), (2, 8, None)];

/// Whether that one is at the clock.
fn is_nth(row: &Nth) -> bool {
    let &(number, clocks, clock) = row;
    nth_where(number, clocks, |c: usize| c % 3 == 2) == clock
}

#[test]
fn first_any_count_and_nth_where(rt: HostRuntime) {
    for (at, row) in CLOCKS.iter().enumerate() {
        assert!(rt; passes(row), "row {at}");
    }
    for (at, row) in NTH.iter().enumerate() {
        assert!(rt; is_nth(row), "row {at} of the numbered");
    }
}
