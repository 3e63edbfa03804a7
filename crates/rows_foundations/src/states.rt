//! The states of a line: what is granted, what a snoop makes of a copy, and how a copy answers it.

use fsb_line::{Answer, Mesi, Purpose};

/// What was asked for, whether another agent has a copy, and the state that is granted.
type Grant = (Purpose, bool, Mesi);

const GRANTS: [Grant; 5] = [
    (Purpose::Read, false, Mesi::Exclusive),
    (Purpose::Read, true, Mesi::Shared),
    (Purpose::Own, true, Mesi::Modified),
    (Purpose::Upgrade, false, Mesi::Modified),
    (Purpose::WriteBack, false, Mesi::Invalid),
];

/// Whether that state is granted.
fn is_granted(row: &Grant) -> bool {
    let &(kind, shared, want) = row;
    Mesi::granted(kind, shared) == want
}

#[test]
fn states_of_a_grant(rt: HostRuntime) {
    for (at, row) in GRANTS.iter().enumerate() {
        assert!(rt; is_granted(row), "row {at}");
    }
    assert!(rt; Purpose::Upgrade.owns() && !Purpose::Read.owns());
}

/// The state of a copy, what another agent asks for, and the state after the snoop.
type Snoop = (Mesi, Purpose, Mesi);

const SNOOPS: [Snoop; 3] = [
    (Mesi::Shared, Purpose::Own, Mesi::Invalid),
    (Mesi::Exclusive, Purpose::Read, Mesi::Shared),
    (Mesi::Invalid, Purpose::Read, Mesi::Invalid),
];

/// Whether the copy is left in that state.
fn is_left(row: &Snoop) -> bool {
    let &(state, kind, want) = row;
    state.after_snoop(kind) == want
}

#[test]
fn states_after_a_snoop(rt: HostRuntime) {
    for (at, row) in SNOOPS.iter().enumerate() {
        assert!(rt; is_left(row), "row {at}");
    }
    assert!(rt; !Mesi::Invalid.is_held() && Mesi::Shared.is_held());
    assert!(rt; !Mesi::Shared.is_sole() && Mesi::Exclusive.is_sole());
}

/// The state of a copy, and how it is answered.
const ANSWERS: [(Mesi, Answer); 4] = [
    (Mesi::Modified, Answer::Modified),
    (Mesi::Exclusive, Answer::Hit),
    (Mesi::Shared, Answer::Hit),
    (Mesi::Invalid, Answer::Clean),
];

/// Whether the copy is answered so.
fn is_answered(row: &(Mesi, Answer)) -> bool {
    let &(state, answer) = row;
    state.answer() == answer
}

#[test]
fn answers_to_a_snoop(rt: HostRuntime) {
    for (at, row) in ANSWERS.iter().enumerate() {
        assert!(rt; is_answered(row), "row {at}");
    }
}
