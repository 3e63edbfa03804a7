//! Times of a dump.

use scope_check::{Begin, Bound};
use scope_report::unscaled_text;
use scope_time::{Factor, NoScale, Scale, part_in, scale_of};
use scope_words::{Moment, Part, Unit};
use std::alloc::{AllocError, Global};
use vcd_header::Section;

const ONE_NANOSECOND: Option<Scale> = Some(Scale {
    factor: Factor::One,
    unit: Unit::Nanosecond,
});

const TEN_PICOSECOND: Option<Scale> = Some(Scale {
    factor: Factor::Ten,
    unit: Unit::Picosecond,
});

const HUNDRED_FEMTOSECOND: Option<Scale> = Some(Scale {
    factor: Factor::Hundred,
    unit: Unit::Femtosecond,
});

const HUNDRED_SECOND: Option<Scale> = Some(Scale {
    factor: Factor::Hundred,
    unit: Unit::Second,
});

const TEN_MILLISECOND: Option<Scale> = Some(Scale {
    factor: Factor::Ten,
    unit: Unit::Millisecond,
});

const ONE_MICROSECOND: Option<Scale> = Some(Scale {
    factor: Factor::One,
    unit: Unit::Microsecond,
});

const TEN_NANOSECOND: Option<Scale> = Some(Scale {
    factor: Factor::Ten,
    unit: Unit::Nanosecond,
});

const HUNDRED_MICROSECOND: Option<Scale> = Some(Scale {
    factor: Factor::Hundred,
    unit: Unit::Microsecond,
});

const ONE_PICOSECOND: Option<Scale> = Some(Scale {
    factor: Factor::One,
    unit: Unit::Picosecond,
});

const ONE_FEMTOSECOND: Option<Scale> = Some(Scale {
    factor: Factor::One,
    unit: Unit::Femtosecond,
});

const TEN_FEMTOSECOND: Option<Scale> = Some(Scale {
    factor: Factor::Ten,
    unit: Unit::Femtosecond,
});

/// The words of two sections, of which the second is a time scale, and what the header says.
const SCALES: [(&str, &str, Option<Scale>); 16] = [
    ("$date", "1ns", ONE_NANOSECOND),
    ("$date", "1|ns", ONE_NANOSECOND),
    ("$date", "10|ps", TEN_PICOSECOND),
    ("$date", "1|0|0|f|s", HUNDRED_FEMTOSECOND),
    ("$date", "100s", HUNDRED_SECOND),
    ("$date", "10ms", TEN_MILLISECOND),
    ("$date", "1us", ONE_MICROSECOND),
    ("$date", "50ns", None),
    ("$date", "1000ns", None),
    ("$date", "01ns", None),
    ("$date", "1 ns", None),
    ("$date", "1NS", None),
    ("$date", "ns", None),
    ("$date", "10", None),
    ("$date", "", None),
    ("$timescale", "1ns", None),
];

/// A section of these words.
fn section(alloc: Global, keyword: &str, words: &str) -> Result<Section, AllocError> {
    let mut section = Section {
        place: 0,
        keyword: Vec::from_slice(alloc, keyword.as_bytes())?,
        words: Vec::new(alloc),
    };
    for word in words.split("|") {
        section.add(alloc, word.as_bytes())?;
    }
    Ok(section)
}

/// What a header says that has a section of today's date before its time scale.
fn scale_behind(alloc: Global, keyword: &str, words: &str) -> Result<Option<Scale>, AllocError> {
    let mut remarks = Vec::new(alloc);
    remarks.push(section(alloc, keyword, "today")?)?;
    remarks.push(section(alloc, "$timescale", words)?)?;
    scale_of(alloc, &remarks)
}

#[test]
fn the_first_time_scale_counts(rt: HostRuntime) {
    for (keyword, words, wanted) in SCALES.iter() {
        let scale = scale_behind(rt.alloc(), keyword, words).expect(&rt, "memory");
        assert!(rt; scale == *wanted, "{keyword} {words}");
    }
    assert!(rt; scale_of(rt.alloc(), &[]).expect(&rt, "memory") == None);
}

/// A scale, a time, and the first and the last step that it allows.
type Time = (Option<Scale>, u64, Unit, u64, u64);

const TIMES: [Time; 12] = [
    (ONE_NANOSECOND, 285, Unit::Nanosecond, 285, 285),
    (TEN_NANOSECOND, 285, Unit::Nanosecond, 29, 28),
    (TEN_NANOSECOND, 280, Unit::Nanosecond, 28, 28),
    (HUNDRED_MICROSECOND, 1, Unit::Femtosecond, 1, 0),
    (HUNDRED_SECOND, 0, Unit::Second, 0, 0),
    (HUNDRED_SECOND, 101, Unit::Second, 2, 1),
    (ONE_PICOSECOND, 3, Unit::Microsecond, 3_000_000, 3_000_000),
    (
        ONE_FEMTOSECOND,
        18_446,
        Unit::Second,
        TOP_SECOND,
        TOP_SECOND,
    ),
    (ONE_FEMTOSECOND, 18_447, Unit::Second, u64::MAX, u64::MAX),
    (
        ONE_FEMTOSECOND,
        9_999_999_999_999_999_999,
        Unit::Second,
        u64::MAX,
        u64::MAX,
    ),
    (
        HUNDRED_SECOND,
        9_999_999_999_999_999_999,
        Unit::Second,
        100_000_000_000_000_000,
        99_999_999_999_999_999,
    ),
    (TEN_FEMTOSECOND, 1, Unit::Picosecond, 100, 100),
];

const TOP_SECOND: u64 = 18_446_000_000_000_000_000;

fn words(at: Option<Moment>, from: Option<Moment>, to: Option<Moment>) -> Part {
    Part {
        at,
        from,
        to,
        quiet: 7,
        most: 1,
    }
}

/// Whether the words, with this scale, name a part of this begin and end.
fn names(scale: Option<Scale>, words: &Part, begin: Begin, to: Option<Bound>) -> bool {
    part_in(scale, words) == Ok(scope_check::Part { begin, to })
}

/// Whether a time is the first and the last step of the row, behind each option.
fn is_named(row: &Time) -> bool {
    let &(scale, count, unit, first, last) = row;
    let time = Some(Moment::Time(count, unit));
    let first = Bound::Time(first);
    let last = Some(Bound::Time(last));
    names(scale, &words(time, None, None), Begin::At(first), None)
        && names(
            scale,
            &words(None, time, time),
            Begin::Quiet(first, 7),
            last,
        )
        && names(scale, &words(None, None, time), Begin::Known, last)
}

#[test]
fn a_time_is_the_nearest_step_inside_the_part(rt: HostRuntime) {
    for (at, row) in TIMES.iter().enumerate() {
        assert!(rt; is_named(row), "row {at}");
    }
}

#[test]
fn a_time_needs_a_time_scale(rt: HostRuntime) {
    let time = Some(Moment::Time(1, Unit::Second));
    let clock = Some(Moment::Clock(5));
    for part in [
        words(time, None, None),
        words(None, time, clock),
        words(clock, None, time),
    ]
    .iter()
    {
        assert!(rt; part_in(None, part) == Err(NoScale));
    }
    let clocks = words(None, clock, clock);
    let begin = Begin::Quiet(Bound::Clock(5), 7);
    assert!(rt; names(None, &clocks, begin, Some(Bound::Clock(5))));
    assert!(rt; names(None, &words(None, None, None), Begin::Known, None));
}

#[test]
fn a_header_without_a_time_scale_is_told(rt: HostRuntime) {
    let text = unscaled_text(rt.alloc(), "x.vcd").expect(&rt, "memory");
    assert!(rt; text.as_slice() == UNSCALED.as_bytes());
}

const UNSCALED: &str = "\
x.vcd: a time is named, and the header has no $timescale of 1, 10 or 100 s, ms, us, ns, ps or fs
--at, --from and --to also take the number of a clock, as 1200
";
