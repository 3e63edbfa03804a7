use crate::plan::Plan;
use arrayvec::ArrayVec;
use scope_check::Verdict;
use vcd_course::Stamp;

/// Why a part ended.
#[derive(Clone, Copy, Debug, PartialEq, Eq)]
pub enum End {
    /// With the dump, or before the clock behind the last one that may be judged.
    Dump,
    /// The dump stopped for a time.
    Hole,
    /// A rule is broken.
    Broken,
    /// A reply has an ID that no request of the part has: what it answers may have been deferred before the part.
    Reply,
}

/// One part of a dump: its clocks are numbered as those of the dump.
#[derive(Clone, Copy, Debug, PartialEq, Eq)]
pub struct PartFound {
    /// The first clock that is judged.
    pub start: u64,
    /// How many clocks are judged, one after another.
    pub judged: u64,
    /// Whether it begins later: of what came before it nothing is known.
    pub is_later: bool,
    pub verdict: Verdict,
    pub end: End,
}

/// What was judged of a dump, part by part.
#[derive(Debug, Drop)]
pub struct PartsFound {
    pub plan: Plan,
    /// How many clocks the dump has.
    pub clocks: u64,
    /// How many clocks are judged in all parts.
    pub judged: u64,
    /// How many parts have a judged clock.
    pub parts: u64,
    /// How many of them end with a broken rule.
    pub broken: u32,
    /// The first sixteen parts that have a judged clock, in order.
    pub first: ArrayVec<PartFound, 16>,
    /// The first sixteen broken ones, in order.
    pub faults: ArrayVec<PartFound, 16>,
    /// How many times the dump stops for a time.
    pub holes: u64,
    /// The stamp before the first of these times, if there is one.
    pub first_hole: Option<Stamp>,
}

// What ArrayVec asks of its elements; it is never told.
impl Default for PartFound {
    ghost is_default = { λ _. Unit {0} };

    fn default() -> PartFound {
        PartFound {
            start: 0,
            judged: 0,
            is_later: false,
            verdict: Verdict::Nothing,
            end: End::Dump,
        }
    }
}
