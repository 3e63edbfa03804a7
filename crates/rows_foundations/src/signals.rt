//! The names and numbers of the lines, and what samples tell.

use fsb_signal::{
    Lines, Marks, SIGNALS, Sample, Signal, Word, idle_sample, line_at, signal_at, signal_named,
};
use rows_store::{Blur, CLEAR, Clock, blurred, sample, sample_with};

/// Names, and the numbers that they have.
const NAMES: [(&str, Option<u8>); 9] = [
    ("BCLK", Some(0)),
    ("ADS_n", Some(8)),
    ("RS_n", Some(15)),
    ("D_n", Some(19)),
    ("AP_n", Some(20)),
    ("RP_n", Some(21)),
    ("bclk", None),
    ("ADS", None),
    ("", None),
];

/// Whether the name has the number of the row.
fn is_named(row: &(&str, Option<u8>)) -> bool {
    let &(name, number) = row;
    signal_named(name) == number
}

#[test]
fn names_have_their_numbers(rt: HostRuntime) {
    for (at, row) in NAMES.iter().enumerate() {
        assert!(rt; is_named(row), "row {at}");
    }
    assert!(rt; signal_at(10).width == 33);
    assert!(rt; !SIGNALS[14].needed);
}

/// A request begins, and the response has two of its lines.
const BEGUN: Clock = (Lines::ADS.0 + Lines::RS2.0 + Lines::RS1.0, 6, 8);

/// Numbers of lines, and what the sample counts there.
const VALUES: [(u8, u64); 4] = [(9, 6), (10, 8), (15, 6), (8, 1)];

/// Whether the sample counts what the row says.
fn counts(sample: &Sample, row: &(u8, u64)) -> bool {
    let &(number, value) = row;
    number < 22 && sample.value(number) == value
}

/// Whether ADS# is asserted at clock 1 alone; past the end nothing is asserted.
fn begins_at_one(samples: &[Sample]) -> bool {
    !line_at(Lines::ADS, samples, 0)
        && line_at(Lines::ADS, samples, 1)
        && !line_at(Lines::ADS, samples, 2)
}

#[test]
fn samples_tell_what_is_asserted(rt: HostRuntime) {
    let sample = sample_with(BEGUN, 0x1122_3344_5566_7788);
    assert!(rt; sample.has(Lines::ADS) && !sample.has(Lines::BREQ0));
    assert!(rt; sample.response() == 6);
    for (at, row) in VALUES.iter().enumerate() {
        assert!(rt; counts(&sample, row), "row {at}");
    }
    assert!(rt; sample.is_known() && sample.req.is_known() && !sample.has_unknown(Lines::ADS));
    assert!(rt; begins_at_one(&[idle_sample(), sample]));
}

#[test]
fn samples_tell_what_is_asserted_of_none(rt: HostRuntime) {
    assert!(rt; idle_sample() == Sample::known(Lines(0), 0, 0, 0));
    assert!(rt; Word::known(5).bits == 5);
}

/// The lines that every dump has to declare.
const NEEDED: [&str; 12] = [
    "BCLK", "BREQ0_n", "ADS_n", "REQ_n", "A_n", "HIT_n", "HITM_n", "RS_n", "TRDY_n", "DBSY_n",
    "DRDY_n", "D_n",
];

/// Whether the table says of a line what the list says.
fn is_needed_as_listed(signal: &Signal) -> bool {
    signal.needed == NEEDED.contains(&signal.name)
}

#[test]
fn table_tells_what_must_be_declared(rt: HostRuntime) {
    for (at, signal) in SIGNALS.iter().enumerate() {
        assert!(rt; is_needed_as_listed(signal), "line {at}");
    }
}

/// The lines, their numbers, and what they count there.
const NUMBERS: [(Lines, u8, u64); 21] = [
    (Lines::BREQ0, 1, 1),
    (Lines::BREQ1, 2, 1),
    (Lines::BREQ2, 3, 1),
    (Lines::BREQ3, 4, 1),
    (Lines::BPRI, 5, 1),
    (Lines::LOCK, 6, 1),
    (Lines::BNR, 7, 1),
    (Lines::ADS, 8, 1),
    (Lines::AERR, 11, 1),
    (Lines::HIT, 12, 1),
    (Lines::HITM, 13, 1),
    (Lines::DEFER, 14, 1),
    (Lines::RS0, 15, 1),
    (Lines::RS1, 15, 2),
    (Lines::RS2, 15, 4),
    (Lines::TRDY, 16, 1),
    (Lines::DBSY, 17, 1),
    (Lines::DRDY, 18, 1),
    (Lines::AP0, 20, 1),
    (Lines::AP1, 20, 2),
    (Lines::RP, 21, 1),
];

/// Whether the sample that asserts this line alone counts what the row says at its number, and 0 at every other.
fn counts_there_alone(row: &(Lines, u8, u64)) -> bool {
    let &(line, number, value) = row;
    if line.0 >= 1 << 21 {
        return false;
    }
    let sample = Sample::known(line, 0, 0, 0);
    for other in 0..22 {
        if sample.value(other) != if other == number { value } else { 0 } {
            return false;
        }
    }
    true
}

#[test]
fn each_line_has_its_number(rt: HostRuntime) {
    for (at, row) in NUMBERS.iter().enumerate() {
        assert!(rt; counts_there_alone(row), "row {at}");
    }
}

/// One bit that is unknown: of a control line, of REQ, of the address word, and of the data.
const UNKNOWN: [Blur; 4] = [
    Blur {
        lines: Lines::HIT.0,
        ..CLEAR
    },
    Blur { req: 1, ..CLEAR },
    Blur { addr: 1, ..CLEAR },
    Blur { data: 1, ..CLEAR },
];

/// Whether a sample of which this is unknown tells it.
fn is_told(blur: &Blur) -> bool {
    let sample = blurred((0, 0, 0), *blur);
    !sample.is_known()
        && sample.has_known_lines() == (blur.lines == 0)
        && sample.req.is_known() == (blur.req == 0)
}

#[test]
fn unknown_bits_are_told(rt: HostRuntime) {
    for (at, blur) in UNKNOWN.iter().enumerate() {
        assert!(rt; is_told(blur), "row {at}");
    }
    assert!(rt; idle_sample().is_known());
}

#[test]
fn unknown_bits_are_told_of_each_line(rt: HostRuntime) {
    let both = Lines(Lines::HIT.0 + Lines::HITM.0);
    let unknown = blurred((0, 0, 0), UNKNOWN[0]);
    assert!(rt; unknown.has_unknown(Lines::HIT) && !unknown.has_unknown(both));
    let hit = sample((Lines::HIT.0, 0, 0));
    assert!(rt; !hit.has(both), "each of the lines");
}

/// The two parities of the request, AP0# and RP#.
const PARITY: u32 = Lines::AP0.0 + Lines::RP.0;

/// A clock, what of its lines is unknown, and whether the parity of the address and that of the request fail.
type Parity = (Clock, u32, bool, bool);

const PARITIES: [Parity; 10] = [
    // A load of address 40, with its parity and without.
    ((Lines::ADS.0 + PARITY, 6, 8), 0, false, false),
    ((Lines::ADS.0, 6, 8), 0, true, true),
    // A23# is of the low part of the address, A24# of the high one.
    ((0, 0, 1 << 20), 0, true, false),
    ((Lines::AP0.0, 0, 1 << 20), 0, false, false),
    ((0, 0, 1 << 21), 0, true, false),
    ((Lines::AP1.0, 0, 1 << 21), 0, false, false),
    ((0, 0, 1 << 32), 0, true, false),
    ((Lines::AP1.0, 0, 1 << 32), 0, false, false),
    // What is unknown makes no parity fail.
    ((0, 1, 1), Lines::AP1.0, false, true),
    ((0, 1, 1), Lines::RP.0, true, false),
];

/// Whether the two parities fail as the row says.
fn fails_so(row: &Parity) -> bool {
    let &(clock, lines, address, request) = row;
    let sample = blurred(clock, Blur { lines, ..CLEAR });
    sample.is_address_odd() == address && sample.is_request_odd() == request
}

#[test]
fn parity_of_a_load(rt: HostRuntime) {
    for (at, row) in PARITIES.iter().enumerate() {
        assert!(rt; fails_so(row), "row {at}");
    }
}

#[test]
fn parity_of_a_load_and_of_a_profile(rt: HostRuntime) {
    let asserted = sample((Lines::ADS.0 + PARITY, 6, 8));
    assert!(rt; asserted.value(20) == 1 && asserted.value(21) == 1);
    let both = Marks { ap: true, rp: true };
    assert!(rt; Marks::of_profile(2) == both && Marks::of_profile(1) != both);
}
