//! Triggers in a worked run, and the words that are triggers.

use fsb_signal::{Lines, idle_sample};
use fsb_trigger::{Found, Hunt, Test, Trigger, decimal_digits};
use rows_store::{STORE_HANDED_OVER_BEFORE_ARRIVAL, sample_at};

/// What is found of the trigger in the run in which a store is handed over before its bytes have come, of 60 clocks.
fn found_in_the_run(trigger: Trigger) -> Option<Found> {
    let mut hunt = Hunt::new(trigger);
    let mut found = None;
    for clock in 0..60 {
        found = hunt.feed(&sample_at(&STORE_HANDED_OVER_BEFORE_ARRIVAL, &[], clock));
    }
    found
}

/// Whether the trigger is found at these clocks, or not at all where there are none.
fn is_found(word: &str, clocks: &[u32]) -> bool {
    match Trigger::read(word) {
        Some(trigger) => match found_in_the_run(trigger) {
            Some(found) => found.clocks.as_slice() == clocks,
            None => clocks.is_empty(),
        },
        None => false,
    }
}

/// Triggers, and the clocks at which each is found.
static TRIGGERS: [(&'static str, &'static [u32]); 4] = [
    ("ADS/HITM,!HIT/RS2,RS1,!RS0", &[5, 9, 14]),
    ("ADS/<3:HITM", &[]),
    ("ADS/<4:HITM", &[5, 9]),
    ("ADS,A=40,REQ=2", &[2]),
];

#[test]
fn find_trigger(rt: HostRuntime) {
    for (word, clocks) in TRIGGERS.iter() {
        assert!(rt; is_found(word, clocks), "{word:?}");
    }
}

/// Words, and whether each is a trigger.
static WORDS: [(&'static str, bool); 36] = [
    ("", false),
    ("ADS/", false),
    ("/ADS", false),
    ("ads", false),
    ("ADS,", false),
    ("!", false),
    ("!!ADS", false),
    ("<3:ADS", false),
    ("ADS/<0:HIT", false),
    ("ADS/<1234567:HIT", false),
    ("ADS/<:HIT", false),
    ("ADS/<3HIT", false),
    ("ADS/<3:", false),
    ("REQ=20", false),
    ("REQ=", false),
    ("A=41", false),
    ("A=1000000000", false),
    ("D=", false),
    ("D=g", false),
    ("D=10000000000000000", false),
    ("X=1", false),
    ("!D=1", false),
    ("ADS_n", false),
    ("RS", false),
    ("ADS/ADS/ADS/ADS/ADS/ADS/ADS/ADS/ADS", false),
    ("ADS,ADS,ADS,ADS,ADS,ADS,ADS,ADS,ADS", false),
    ("RP,AP0,!AP1", true),
    ("REQ=1F", true),
    ("A=FFFFFFFF8", true),
    ("D=ffffFFFFffffFFFF", true),
    ("D=00000000000000ff", true),
    ("A=0", true),
    ("ADS/ADS/ADS/ADS/ADS/ADS/ADS/ADS", true),
    ("ADS,ADS,ADS,ADS,ADS,ADS,ADS,ADS", true),
    ("ADS/<000001:HIT", true),
    ("ADS/<999999:HIT", true),
];

/// Whether the word is a trigger.
fn is_read(word: &str) -> bool {
    Trigger::read(word).is_some()
}

#[test]
fn words_that_are_triggers(rt: HostRuntime) {
    for (word, is_trigger) in WORDS.iter() {
        assert!(rt; is_read(word) == *is_trigger, "{word:?}");
    }
    assert!(rt; !Test::Asserted(Lines::ADS).holds(&idle_sample()));
}

/// Digits, and their number.
static DECIMALS: [(&'static str, Option<u64>); 3] = [
    ("0042", Some(42)),
    ("4a", None),
    ("9999999999999999999", Some(9_999_999_999_999_999_999)),
];

#[test]
fn decimal_digits_make_a_number(rt: HostRuntime) {
    for (digits, number) in DECIMALS.iter() {
        assert!(rt; decimal_digits(digits.as_bytes()) == *number, "{digits}");
    }
}
