//! Hazards: what lines, seeds and objects choose, how choices join, and which of them count.

use fsb_encode::{Kind, Request};
use fsb_hazard::{
    Ask, Choice, Hazard, HazardLine, HazardLines, QuietHazard, ScriptHazard, SeedHazard, Turn,
    ask_all, effective, entry_laws, entry_of, join, join_laws, load_all, next_state, quiet_choice,
    seed_entry, seed_line,
};
use std::alloc::{AllocError, Global};
use std::test::Fail;

const QUIET: Choice = Choice {
    bnr: false,
    aerr: false,
    stall: 0,
    trdy: 0,
    resp: 0,
    gap: 0,
    turn: Turn::Keep,
};

const HELD: Choice = Choice { bnr: true, ..QUIET };

const RETRIED: Choice = Choice {
    turn: Turn::Retry,
    ..QUIET
};

const STALLED: Choice = Choice { stall: 1, ..QUIET };

/// A read of line 2 that may be deferred.
const READ: Request = Request {
    kind: Kind::Read,
    line: 2,
    chunk: 0,
    did: 0,
    den: true,
};

/// The question of the request with this number, a read.
fn begun(number: u32) -> Ask {
    Ask::Begun {
        number,
        request: READ,
    }
}

#[test]
fn lines_are_kept_in_order(rt: HostRuntime) -> Result<(), Fail> {
    let mut lines = HazardLines::new(rt.alloc());
    let given = [HazardLine::Stall(0, 2), HazardLine::Bnr(5, 8)];
    for line in given {
        lines.push(line)?;
    }
    assert!(rt; lines.as_slice() == given.as_slice());
    Ok(())
}

/// Lines of four requests, and one that holds clocks.
const LINES: [HazardLine; 10] = [
    HazardLine::Stall(1, 2),
    HazardLine::Stall(1, 1),
    HazardLine::Trdy(1, 3),
    HazardLine::Resp(1, 4),
    HazardLine::Gap(1, 5),
    HazardLine::Defer(1, 20),
    HazardLine::Retry(3),
    HazardLine::Defer(3, 6),
    HazardLine::Aerr(4),
    HazardLine::Bnr(1, 4),
];

const LATE: Choice = Choice {
    stall: 2,
    trdy: 3,
    resp: 4,
    gap: 5,
    turn: Turn::Defer(20),
    ..QUIET
};

const CANCELLED: Choice = Choice {
    aerr: true,
    ..QUIET
};

/// Clocks, and what the lines answer there.
const CLOCKS: [(u32, Choice); 5] = [(0, QUIET), (1, HELD), (3, HELD), (4, HELD), (5, QUIET)];

/// Whether the lines answer so at the clock.
fn is_at_clock(row: &(u32, Choice)) -> bool {
    let &(clock, answer) = row;
    entry_of(&LINES, &Ask::Clock(clock)) == answer
}

/// Requests, and what the lines answer to them.
const REQUESTS: [(u32, Choice); 5] = [
    (0, QUIET),
    (1, LATE),
    (2, QUIET),
    (3, RETRIED),
    (4, CANCELLED),
];

/// Whether the lines answer so to the request.
fn is_of_request(row: &(u32, Choice)) -> bool {
    let &(number, answer) = row;
    entry_of(&LINES, &begun(number)) == answer
}

#[test]
fn answers_of_hazard_lines(rt: HostRuntime) {
    for (at, row) in CLOCKS.iter().enumerate() {
        assert!(rt; is_at_clock(row), "row {at} of the clocks");
    }
    for (at, row) in REQUESTS.iter().enumerate() {
        assert!(rt; is_of_request(row), "row {at} of the requests");
    }
    entry_laws();
}

/// The seed, the request, and the line that it has.
type Seed = (u64, u32, Option<HazardLine>);

const SEEDS: [Seed; 10] = [
    (0, 0, None),
    (0, 1, Some(HazardLine::Gap(1, 1))),
    (0, 3, Some(HazardLine::Aerr(3))),
    (0, 5, Some(HazardLine::Stall(5, 1))),
    (0, 6, None),
    (0, 8, Some(HazardLine::Resp(8, 2))),
    (0, 10, Some(HazardLine::Retry(10))),
    (0, 13, Some(HazardLine::Trdy(13, 1))),
    (42, 9, Some(HazardLine::Defer(9, 5))),
    (u64::MAX, 2, Some(HazardLine::Gap(2, 1))),
];

/// Whether the request has that line.
fn is_drawn(row: &Seed) -> bool {
    let &(seed, number, line) = row;
    seed_line(seed, number) == line
}

#[test]
fn lines_of_seeds(rt: HostRuntime) {
    assert!(rt; next_state(0) == 1_442_695_040_888_963_407);
    for (at, row) in SEEDS.iter().enumerate() {
        assert!(rt; is_drawn(row), "row {at}");
    }
}

#[test]
fn entries_of_a_seed(rt: HostRuntime) {
    assert!(rt; seed_entry(0, &begun(9)) == QUIET);
    assert!(rt; seed_entry(0, &begun(10)) == RETRIED);
    assert!(rt; seed_entry(0, &Ask::Clock(10)) == QUIET);
}

/// The turns of two choices, and that of both together.
type Join = (Turn, Turn, Turn);

const JOINS: [Join; 7] = [
    (Turn::Keep, Turn::Keep, Turn::Keep),
    (Turn::Keep, Turn::Defer(4), Turn::Defer(4)),
    (Turn::Keep, Turn::Retry, Turn::Retry),
    (Turn::Defer(4), Turn::Defer(9), Turn::Defer(9)),
    (Turn::Defer(0), Turn::Defer(0), Turn::Defer(0)),
    (Turn::Defer(65_535), Turn::Retry, Turn::Retry),
    (Turn::Retry, Turn::Retry, Turn::Retry),
];

/// A choice of nothing but a turn.
fn turning(turn: Turn) -> Choice {
    Choice { turn, ..QUIET }
}

/// Whether the two turns come to that one, whichever is first.
fn is_joined(row: &Join) -> bool {
    let &(one, other, turn) = row;
    let (a, b, both) = (turning(one), turning(other), turning(turn));
    join(&a, &b) == both && join(&b, &a) == both
}

#[test]
fn turns_of_two_choices(rt: HostRuntime) {
    for (at, row) in JOINS.iter().enumerate() {
        assert!(rt; is_joined(row), "row {at}");
    }
}

#[test]
fn truth_values_and_numbers_of_two_choices(rt: HostRuntime) {
    let a = Choice {
        bnr: true,
        aerr: false,
        stall: 2,
        trdy: 0,
        resp: 255,
        gap: 1,
        turn: Turn::Keep,
    };
    let b = Choice {
        bnr: false,
        aerr: true,
        stall: 1,
        trdy: 7,
        resp: 254,
        gap: 1,
        turn: Turn::Keep,
    };
    let both = Choice {
        bnr: true,
        aerr: true,
        stall: 2,
        trdy: 7,
        resp: 255,
        gap: 1,
        turn: Turn::Keep,
    };
    assert!(rt; join(&a, &b) == both);
    assert!(rt; join(&a, &quiet_choice()) == a);
    assert!(rt; quiet_choice() == QUIET);
    join_laws();
}

const LATER: Turn = Turn::Defer(3);

/// The kind, DEN#, whether the line is in the window, whether it is pending, what was chosen, what counts.
type InEffect = (Kind, bool, bool, bool, Turn, Turn);

const TURNS: [InEffect; 15] = [
    (Kind::WriteBack, false, true, true, Turn::Retry, Turn::Keep),
    (Kind::WriteBack, false, true, false, LATER, Turn::Keep),
    (Kind::Reply, false, true, true, Turn::Retry, Turn::Keep),
    (Kind::Reply, false, false, false, Turn::Keep, Turn::Keep),
    (Kind::Read, true, true, true, LATER, Turn::Retry),
    (
        Kind::Invalidate,
        false,
        false,
        true,
        Turn::Keep,
        Turn::Retry,
    ),
    (Kind::Read, true, true, false, LATER, LATER),
    (Kind::Read, false, true, false, LATER, Turn::Keep),
    (Kind::Invalidate, true, false, false, LATER, Turn::Keep),
    (Kind::Invalidate, true, true, false, LATER, LATER),
    (Kind::Read, false, false, false, Turn::Retry, Turn::Retry),
    (Kind::Read, true, true, false, Turn::Keep, Turn::Keep),
    (Kind::Upgrade, false, true, true, Turn::Keep, Turn::Retry),
    (Kind::Upgrade, false, true, false, LATER, Turn::Keep),
    (Kind::Upgrade, false, true, false, Turn::Retry, Turn::Retry),
];

/// Whether that turn counts, and all else of the choice with it.
fn counts(row: &InEffect) -> bool {
    let &(kind, den, in_window, pending, chosen, turn) = row;
    let request = Request {
        kind,
        line: 0,
        den,
        ..READ
    };
    let choice = Choice {
        stall: 5,
        aerr: true,
        turn: chosen,
        ..QUIET
    };
    effective(&choice, &request, in_window, pending) == Choice { turn, ..choice }
}

#[test]
fn turns_in_effect(rt: HostRuntime) {
    for (at, row) in TURNS.iter().enumerate() {
        assert!(rt; counts(row), "row {at}");
    }
}

/// What is asked, what three objects answer, and what they answer together.
type Asked = (Ask, &'static [Choice], Choice);

const FIFTH: Ask = Ask::Begun {
    number: 5,
    request: READ,
};

const STALLED_AND_RETRIED: Choice = Choice {
    stall: 1,
    turn: Turn::Retry,
    ..QUIET
};

const ASKED: [Asked; 4] = [
    (FIFTH, &[RETRIED, STALLED, QUIET], STALLED_AND_RETRIED),
    (Ask::Clock(1), &[QUIET, QUIET, QUIET], QUIET),
    (Ask::Clock(2), &[HELD, QUIET, QUIET], HELD),
    (FIFTH, &[RETRIED, STALLED, QUIET], STALLED_AND_RETRIED),
];

/// Whether each object answers so.
fn answer_so(objects: &mut [Box<dyn Hazard>], ask: &Ask, answers: &[Choice]) -> bool {
    for (object, answer) in objects.iter_mut().zip(answers) {
        if object.choose(ask) != *answer {
            return false;
        }
    }
    true
}

/// Whether each object answers so, and all of them together.
fn is_answered(objects: &mut [Box<dyn Hazard>], row: &Asked) -> bool {
    let &(ask, answers, together) = row;
    answer_so(objects, &ask, answers) && ask_all(objects, &ask) == together
}

/// Whether the objects take the lines.
fn is_loaded(objects: &mut [Box<dyn Hazard>], lines: &[HazardLine]) -> bool {
    load_all(objects, lines) == Ok(())
}

/// An object of each kind.
fn one_of_each(alloc: Global) -> Result<Vec<Box<dyn Hazard>>, AllocError> {
    let mut objects: Vec<Box<dyn Hazard>> = Vec::new(alloc);
    objects.push(Box::new(alloc, ScriptHazard::new(alloc))?)?;
    objects.push(Box::new(alloc, SeedHazard::new(0))?)?;
    objects.push(Box::new(alloc, QuietHazard::new())?)?;
    Ok(objects)
}

#[test]
fn boxed_objects_answer_what_they_tell(rt: HostRuntime) -> Result<(), Fail> {
    let mut objects = one_of_each(rt.alloc())?;
    assert!(rt; ask_all(&mut objects, &FIFTH) == STALLED, "before any line");
    assert!(rt; is_loaded(&mut objects, &[HazardLine::Aerr(5), HazardLine::Bnr(1, 1)]));
    assert!(rt; is_loaded(&mut objects, &[HazardLine::Retry(5), HazardLine::Bnr(2, 3)]));
    for (at, row) in ASKED.iter().enumerate() {
        assert!(rt; is_answered(&mut objects, row), "row {at}");
    }
    Ok(())
}

/// Lines whose clocks overlap, and several of one request.
const OVERLAPPING: [HazardLine; 9] = [
    HazardLine::Bnr(5, 20),
    HazardLine::Stall(7, 1),
    HazardLine::Bnr(6, 7),
    HazardLine::Retry(4),
    HazardLine::Bnr(2, 3),
    HazardLine::Stall(7, 3),
    HazardLine::Bnr(18, 22),
    HazardLine::Defer(7, 2),
    HazardLine::Bnr(u32::MAX, u32::MAX),
];

/// Clocks, and whether one of the lines holds them.
const HOLDS: [(u32, bool); 12] = [
    (0, false),
    (1, false),
    (2, true),
    (3, true),
    (4, false),
    (5, true),
    (8, true),
    (20, true),
    (22, true),
    (23, false),
    (u32::MAX - 1, false),
    (u32::MAX, true),
];

/// Whether the clock is held so.
fn is_held(hazard: &mut ScriptHazard, row: &(u32, bool)) -> bool {
    let &(clock, bnr) = row;
    hazard.choose(&Ask::Clock(clock)) == Choice { bnr, ..QUIET }
}

const LATER_STALLED: Choice = Choice {
    stall: 3,
    turn: Turn::Defer(2),
    ..QUIET
};

/// Requests, and what is chosen for them.
const CHOSEN: [(u32, Choice); 5] = [
    (3, QUIET),
    (4, RETRIED),
    (5, QUIET),
    (7, LATER_STALLED),
    (8, QUIET),
];

/// Whether that is chosen for the request.
fn is_chosen(hazard: &mut ScriptHazard, row: &(u32, Choice)) -> bool {
    let &(number, answer) = row;
    hazard.choose(&begun(number)) == answer
}

#[test]
fn overlapping_clocks_and_lines_of_one_request(rt: HostRuntime) -> Result<(), Fail> {
    let mut hazard = ScriptHazard::new(rt.alloc());
    assert!(rt; hazard.load(&OVERLAPPING) == Ok(()));
    for (at, row) in HOLDS.iter().enumerate() {
        assert!(rt; is_held(&mut hazard, row), "row {at} of the clocks");
    }
    for (at, row) in CHOSEN.iter().enumerate() {
        assert!(rt; is_chosen(&mut hazard, row), "row {at} of the requests");
    }
    Ok(())
}
