//! Canonical texts of plans: of those that are read, and of those that the generator makes.

use crate::scripts::read;
use fsb_access::{Access, Item, Operand, Script};
use fsb_hazard::HazardLine;
use fsb_io::Memory;
use fsb_script::{Plan, Window, plan_of, write_bench};
use std::alloc::Global;

/// A plan with a line of each form, in its canonical text.
const EACH_FORM: &str = "\
p6bench 1
agents 2
clocks 200000
cache 1024
ahead 4
profile 2
bridge 1000 20
mem 40 07
mem fffffffff ff
agent 0
idle 11
lock
ld 1 40
st 1 40 r+1
unlock
st 8 ffffffff8 fedcba9876543210
end
agent 1
end
tx 0 stall 1
tx 1 trdy 255
tx 2 resp 3
tx 3 data 4
tx 199999 retry
tx 5 defer 65535
tx 6 defer 0
tx 7 aerr
bnr 0 199999
";

/// The canonical text of the first run's plan.
const FIRST_RUN: &str =
    "p6bench 1\nagents 1\nclocks 60\ncache 64\nahead 1\nmem 40 07\nagent 0\nld 1 40\nst 1 41 5\nend\n";

/// The canonical text of lines of memory that go on, overlap, go back and stand alone: one line for each byte.
const RUNS: &str =
    "p6bench 1\nagents 1\nclocks 0\ncache 1\nahead 1\nmem 40 01\nmem 41 02\nmem 42 03\nmem 41 04\nmem 42 05\nmem 3f 06\nmem 40 07\nmem fffffffff 08\nmem 0 09\nagent 0\nend\n";

/// Texts, and the canonical text that is written of what each says.
static WRITTEN: [(&'static str, &'static str); 7] = [
    (EACH_FORM, EACH_FORM),
    (FIRST_RUN, FIRST_RUN),
    // In another spelling.
    (
        "p6bench 1\n\nagents 01\nclocks\t060\r\ncache 64\nahead 1\n# m\nmem 0040 07\nagent 0\nld 1 040\nst 1 41 05\nend",
        FIRST_RUN,
    ),
    // Profile 1 has no line.
    (
        "p6bench 1\nagents 1\nclocks 60\ncache 64\nahead 1\nprofile 1\nmem 40 07\nagent 0\nld 1 40\nst 1 41 5\nend\n",
        FIRST_RUN,
    ),
    // Every operand, and a line of several bytes as one setting each.
    (
        "p6bench 1\nagents 1\nclocks 0\ncache 1\nahead 1\nmem fE 0aB0\nagent 0\nst 8 40 r+0FF\nst 2 5e 00\nend\n",
        "p6bench 1\nagents 1\nclocks 0\ncache 1\nahead 1\nmem fe 0a\nmem ff b0\nagent 0\nst 8 40 r+ff\nst 2 5e 0\nend\n",
    ),
    (
        "p6bench 1\nagents 1\nclocks 0\ncache 1\nahead 1\nmem 40 0102\nmem 42 03\nmem 41 0405\nmem 3f 06\nmem 40 07\nmem fffffffff 08\nmem 0 09\nagent 0\nend\n",
        RUNS,
    ),
    (RUNS, RUNS),
];

/// Whether what is read of a text is written as this one.
fn is_written(alloc: Global, text: &str, canonical: &str) -> Result<bool, Memory> {
    match read(alloc, text) {
        Ok(plan) => Ok(write_bench(alloc, &plan)?.as_slice() == canonical.as_bytes()),
        Err(_) => Ok(false),
    }
}

/// What is read of a text is written as its canonical text, in whatever spelling it came.
#[test]
fn texts_read_and_written(rt: HostRuntime) {
    for (text, canonical) in WRITTEN.iter() {
        assert!(rt;
            matches!(is_written(rt.alloc(), text, canonical), Ok(true)),
            "{text:?}"
        );
    }
}

/// A hazard of each kind.
static HAZARDS: [HazardLine; 9] = [
    HazardLine::Stall(0, 1),
    HazardLine::Trdy(1, 255),
    HazardLine::Resp(2, 3),
    HazardLine::Gap(3, 4),
    HazardLine::Retry(199_999),
    HazardLine::Defer(5, 65_535),
    HazardLine::Defer(6, 0),
    HazardLine::Aerr(7),
    HazardLine::Bnr(0, 199_999),
];

/// A load, and a store of one more than it loads.
static INCREMENT: [Access; 2] = [
    Access::Load {
        size: 1,
        addr: 0x40,
    },
    Access::Store {
        size: 1,
        addr: 0x40,
        value: Operand::LastPlus(1),
    },
];

/// A store of the last eight bytes.
static LAST_STORE: Access = Access::Store {
    size: 8,
    addr: 0xf_ffff_fff8,
    value: Operand::Literal(0xfedc_ba98_7654_3210),
};

/// Whether these are the scripts of two agents, of which the second has no items.
fn are_the_scripts(scripts: &[Script]) -> bool {
    match scripts {
        [first, second] => {
            second.as_slice().is_empty()
                && match first.as_slice() {
                    [Item::Idle(11), Item::Locked(group), Item::One(store)] => {
                        group.as_slice() == INCREMENT.as_slice() && *store == LAST_STORE
                    }
                    _ => false,
                }
        }
        _ => false,
    }
}

/// The bridge of that plan.
static WINDOW: Window = Window {
    base: 0x1000,
    size: 0x20,
};

/// Whether the plan has these scripts and hazards, profile 2 and this bridge.
fn has_each_form(plan: &Plan) -> bool {
    are_the_scripts(plan.scripts.as_slice())
        && plan.hazards.as_slice() == HAZARDS.as_slice()
        && plan.profile == 2
        && plan.bridge == Some(WINDOW)
}

/// Whether that plan is read of the text.
fn is_each_form_read(alloc: Global) -> bool {
    match read(alloc, EACH_FORM) {
        Ok(plan) => has_each_form(&plan),
        Err(_) => false,
    }
}

/// The plan that has these scripts and hazards, profile 2 and this bridge is written as the text with a line of each form.
#[test]
fn lines_of_scripts_and_hazards(rt: HostRuntime) {
    assert!(rt; is_each_form_read(rt.alloc()));
    assert!(rt; matches!(is_written(rt.alloc(), EACH_FORM, EACH_FORM), Ok(true)));
}

/// Seed 0, one agent with one item.
const LOCKED_ITEM: &str = "\
p6bench 1
agents 1
clocks 40
cache 16
ahead 1
bridge 600 200
agent 0
lock
ld 1 0
st 1 0 r+1
unlock
end
";

/// Seed 25, two agents with four items each.
const EACH_KIND_OF_ITEM: &str = "\
p6bench 1
agents 2
clocks 320
cache 16
ahead 1
bridge 600 200
agent 0
ld 2 3e2
ld 1 22d
ld 2 388
st 4 10c a8
end
agent 1
lock
ld 1 0
st 1 0 r+1
unlock
ld 1 3fa
idle 2
lock
ld 1 0
st 1 0 r+1
unlock
end
tx 0 trdy 1
tx 2 aerr
tx 4 stall 1
tx 5 data 1
tx 7 resp 2
";

/// The last seed, three agents with two items each; what the requests from 1 on draw begins again at 0.
const LAST_SEED: &str = "\
p6bench 1
agents 3
clocks 240
cache 16
ahead 1
bridge 600 200
agent 0
st 8 2b0 80
ld 2 2f0
end
agent 1
st 8 640 5a
lock
ld 1 0
st 1 0 r+1
unlock
end
agent 2
ld 2 84
ld 2 382
end
tx 2 data 1
tx 4 aerr
";

/// The seed, the agents and their items, and the text of the plan.
type Made = (u64, u8, u16, &'static str);

static MADE: [Made; 3] = [
    (0, 1, 1, LOCKED_ITEM),
    (25, 2, 4, EACH_KIND_OF_ITEM),
    (u64::MAX, 3, 2, LAST_SEED),
];

/// Whether the plan of the seed is written so.
fn is_made(alloc: Global, row: &Made) -> Result<bool, Memory> {
    let &(seed, agents, items, text) = row;
    if agents < 1 || 4 < agents || items < 1 || 4_096 < items {
        return Ok(false);
    }
    let plan = plan_of(alloc, seed, agents, items)?;
    Ok(write_bench(alloc, &plan)?.as_slice() == text.as_bytes())
}

#[test]
fn plans_of_three_seeds(rt: HostRuntime) {
    for (at, row) in MADE.iter().enumerate() {
        assert!(rt; matches!(is_made(rt.alloc(), row), Ok(true)), "row {at}");
    }
}

/// Whether the plan has the most clocks, and these hazard lines in number, with this last one.
fn is_largest(plan: &Plan) -> bool {
    let hazards = plan.hazards.as_slice();
    plan.clocks == 200_000
        && plan.scripts.as_slice().len() == 4
        && hazards.len() == 1_790
        && hazards[hazards.len() - 1] == HazardLine::Trdy(4_094, 1)
}

/// Clocks end at 200,000, and hazard lines at request 4,095.
#[test]
fn largest_plan(rt: HostRuntime) {
    let plan = plan_of(rt.alloc(), 7, 4, 4_096).expect(&rt, "out of memory");
    assert!(rt; is_largest(&plan));
}
