//! What the wires show of one line, and which event leaves no joint state.

use fsb_joint::{Begun, JointSet, LineSets, SnoopEnd};
use fsb_line::Purpose;
use std::alloc::AllocError;

/// What the wires show.
#[derive(Clone, Copy)]
enum Event {
    /// A request begins.
    Begins(u8, Purpose),
    /// A request has its snoop end with HIT#, with HITM#, and turned away or not.
    Ends(u8, Purpose, bool, bool, bool),
    /// The reply to a request has its snoop end with HIT#.
    Answers(u8, Purpose, bool),
    /// Clocks go by in which nobody waits for anything.
    Rests,
    /// Clocks go by in which this agent waits for its bytes.
    Awaits(u8),
    /// Clocks go by in which this agent asks for an upgrade.
    Upgrades(u8),
}

/// All agents but this one.
fn others(agent: u8) -> [bool; 4] {
    [agent != 0, agent != 1, agent != 2, agent != 3]
}

/// What the event leaves.
fn after(set: JointSet, event: Event) -> JointSet {
    match event {
        Event::Begins(agent, kind) => set.after_begin(Some(Begun {
            agent: agent % 4,
            kind,
        })),
        Event::Ends(asker, kind, hit, hitm, turned) => {
            let end = Some(SnoopEnd {
                asker: asker % 4,
                kind,
                is_reply: false,
                hit,
                hitm,
                turned,
            });
            set.after_answer(end).after_snoop_end(end)
        }
        Event::Answers(asker, kind, hit) => {
            let end = Some(SnoopEnd {
                asker: asker % 4,
                kind,
                is_reply: true,
                hit,
                hitm: false,
                turned: false,
            });
            set.after_answer(end).after_snoop_end(end)
        }
        Event::Rests => set.after_unseen([true; 4], [true; 4]),
        Event::Awaits(agent) => set.after_unseen(others(agent), others(agent)),
        Event::Upgrades(agent) => set.after_unseen([true; 4], others(agent)),
    }
}

/// The first event that leaves none, from 0; the number of events where each leaves one.
fn first_unfit(first: JointSet, events: &[Event]) -> usize {
    let mut set = first;
    for at in 0..events.len() {
        set = after(set, events[at]);
        if set.is_empty() {
            return at;
        }
    }
    events.len()
}

use Event::{Answers, Awaits, Begins, Ends, Rests, Upgrades};
use Purpose::{Own, Read, Upgrade, WriteBack};

#[test]
fn owners_answer(rt: HostRuntime) {
    let silent = [
        Ends(0, Own, false, false, false),
        Awaits(0),
        Ends(1, Read, false, false, false),
    ];
    assert!(rt; first_unfit(JointSet::unheld(), &silent) == 2);
    let heard = [
        Ends(0, Own, false, false, false),
        Awaits(0),
        Ends(1, Read, false, true, false),
    ];
    assert!(rt; first_unfit(JointSet::unheld(), &heard) == 3);
    let too_soon = [
        Ends(0, Read, false, false, false),
        Awaits(0),
        Ends(1, Read, false, true, false),
    ];
    assert!(rt; first_unfit(JointSet::unheld(), &too_soon) == 2);
    let stored = [
        Ends(0, Read, false, false, false),
        Rests,
        Ends(1, Read, false, true, false),
    ];
    assert!(rt; first_unfit(JointSet::unheld(), &stored) == 3);
    let stored_twice = [
        Ends(0, Read, false, false, false),
        Rests,
        Ends(1, Read, false, true, false),
        Rests,
        Ends(2, Read, false, true, false),
    ];
    assert!(rt; first_unfit(JointSet::unheld(), &stored_twice) == 4);
}

#[test]
fn holders_answer(rt: HostRuntime) {
    let silent = [
        Ends(0, Read, false, false, false),
        Awaits(0),
        Ends(1, Read, false, false, false),
    ];
    assert!(rt; first_unfit(JointSet::unheld(), &silent) == 2);
    let dropped = [
        Ends(0, Read, false, false, false),
        Rests,
        Ends(1, Read, false, false, false),
    ];
    assert!(rt; first_unfit(JointSet::unheld(), &dropped) == 3);
    let of_nobody = [Ends(0, Read, true, false, false)];
    assert!(rt; first_unfit(JointSet::unheld(), &of_nobody) == 0);
    assert!(rt; first_unfit(JointSet::every(), &of_nobody) == 1);
    let while_upgrading = [
        Ends(0, Read, false, false, false),
        Rests,
        Ends(1, Read, true, false, false),
        Begins(0, Upgrade),
        Upgrades(0),
        Ends(2, Read, false, false, false),
    ];
    assert!(rt; first_unfit(JointSet::unheld(), &while_upgrading) == 5);
}

#[test]
fn requests_fit_what_their_agents_have(rt: HostRuntime) {
    for kind in [Upgrade, WriteBack] {
        assert!(rt; first_unfit(JointSet::unheld(), &[Begins(0, kind)]) == 0);
    }
    for kind in [Read, Own] {
        assert!(rt; first_unfit(JointSet::unheld(), &[Begins(0, kind)]) == 1);
    }
    for kind in [Read, Own, Upgrade, WriteBack] {
        assert!(rt; first_unfit(JointSet::every(), &[Begins(0, kind)]) == 1);
    }
    let read_again = [
        Ends(0, Read, false, false, false),
        Awaits(0),
        Begins(0, Read),
    ];
    assert!(rt; first_unfit(JointSet::unheld(), &read_again) == 2);
    let clean_written = [
        Ends(0, Read, false, false, false),
        Awaits(0),
        Begins(0, WriteBack),
    ];
    assert!(rt; first_unfit(JointSet::unheld(), &clean_written) == 2);
    let written = [
        Ends(0, Read, false, false, false),
        Rests,
        Begins(0, WriteBack),
    ];
    assert!(rt; first_unfit(JointSet::unheld(), &written) == 3);
}

#[test]
fn lost_upgrades_give_nothing(rt: HostRuntime) {
    let lost = [
        Ends(0, Read, false, false, false),
        Rests,
        Ends(1, Read, true, false, false),
        Begins(0, Upgrade),
        Ends(1, Own, true, false, true),
        Ends(0, Upgrade, true, false, false),
        Rests,
        Ends(2, Read, false, false, false),
    ];
    assert!(rt; first_unfit(JointSet::unheld(), &lost) == 8);
    let won = [
        Ends(0, Read, false, false, false),
        Rests,
        Ends(1, Read, true, false, false),
        Begins(0, Upgrade),
        Ends(0, Upgrade, true, false, false),
        Rests,
        Ends(2, Read, false, false, false),
    ];
    assert!(rt; first_unfit(JointSet::unheld(), &won) == 6);
}

#[test]
fn replies_are_no_snoops(rt: HostRuntime) {
    let given_up = [
        Ends(1, Read, false, false, false),
        Rests,
        Ends(0, Read, true, false, true),
        Ends(2, Own, true, false, true),
        Answers(0, Read, true),
    ];
    assert!(rt; first_unfit(JointSet::unheld(), &given_up) == 5);
    let owned = [
        Ends(0, Own, false, false, true),
        Answers(0, Own, false),
        Ends(1, Read, false, false, false),
    ];
    assert!(rt; first_unfit(JointSet::unheld(), &owned) == 2);
    let held_by_another = [
        Ends(0, Own, false, false, true),
        Ends(1, Read, false, false, false),
        Awaits(1),
        Answers(0, Own, false),
    ];
    assert!(rt; first_unfit(JointSet::unheld(), &held_by_another) == 3);
}

#[test]
fn ownership_is_told(rt: HostRuntime) {
    let owned = after(JointSet::unheld(), Ends(0, Own, false, false, false));
    assert!(rt; owned.is_owned_elsewhere(1) && !owned.is_owned_elsewhere(0));
    assert!(rt;
        !JointSet::every().is_owned_elsewhere(1) && !JointSet::unheld().is_owned_elsewhere(1)
    );
}

#[test]
fn lines_have_their_own_sets(rt: HostRuntime) -> Result<(), AllocError> {
    let mut lines = LineSets::new(rt.alloc(), JointSet::unheld());
    let owned = after(JointSet::unheld(), Ends(0, Own, false, false, false));
    lines.insert(2, owned)?;
    assert!(rt; lines.get(2) == owned && lines.get(3) == JointSet::unheld());
    lines.insert(2, JointSet::every())?;
    assert!(rt; lines.get(2) == JointSet::every() && lines.get(0) == JointSet::unheld());
    Ok(())
}
