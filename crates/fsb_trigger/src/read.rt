//! A trigger, read from a word.

ghost use Rattle.std.specs.Prelude.{◌≡◌, ◌<◌, ◌≤◌, IfSome, length, map, option_map};
ghost use Rattle.fsb_trigger.specs.Grammar.{address_test, bound_of, bounded_step, behind_first, cut_of, hex_number, hex_value, next_of, number_behind, plain_test, request_test, short_number, step_read, steps_read, test_of, tests_of, trigger_of, word_test};
ghost use Rattle.fsb_trigger.specs.Hunt.{steps_in};
ghost use Rattle.fsb_trigger.specs.TriggerSteps.{view_of};

use crate::decimal::decimal_digits;
use crate::test::Test;
use crate::trigger::{Trigger, TriggerStep};
use arrayvec::ArrayVec;
use fsb_signal::line_named;

impl Trigger {
    /// The trigger that the word is, or none where it is no trigger.
    ///
    /// A trigger is 1 to 8 steps divided by `/`. A step is 1 to 8 tests divided by `,`; from the second step on it may
    /// begin with `<n:`, where n has 1 to 6 decimal digits and is not 0. A test is the name of a control line, `!` and
    /// such a name, or `REQ=`, `A=` or `D=` and 1 to 16 hexadecimal digits: a request word below 20, an address below
    /// 2^36 that is a multiple of 8, a data word.
    #[tactic(auto, unfolding(crate::specs::Grammar::trigger_of, crate::specs::Grammar::first_unbound))]
    pub fn read(word: &str) -> Option<Trigger>
        ensures { option_map steps_in result ≡ trigger_of word.now }
    {
        let steps = read_steps(word)?;
        match steps.as_slice() {
            [] => None,
            [first, ..] => match first.bound {
                Some(_) => None,
                None => Some(Trigger { steps }),
            },
        }
    }
}

// The steps of a word.
fn read_steps(word: &str) -> Option<ArrayVec<TriggerStep, 8>>
    ensures { option_map (λ steps. map view_of steps.items) result ≡ steps_read word.now }
{
    let mut steps: ArrayVec<TriggerStep, 8> = ArrayVec::new();
    let mut rest = word;
    while let Some((first, more)) = cut(rest, '/') {
        steps = with_step(steps, first)?;
        rest = more;
    }
    with_step(steps, rest)
}

// These steps and one more, where there is room for it.
#[tactic(auto, unfolding(crate::specs::Grammar::next_of))]
fn with_step(mut steps: ArrayVec<TriggerStep, 8>, text: &str) -> Option<ArrayVec<TriggerStep, 8>>
    ensures { option_map (λ steps. map view_of steps.items) result
        ≡ next_of step_read (map view_of steps.items) text.now }
{
    if steps.is_full() {
        return None;
    }
    steps.push(read_step(text)?);
    Some(steps)
}

// A step.
#[tactic(auto, unfolding(crate::specs::Grammar::step_read))]
fn read_step(text: &str) -> Option<TriggerStep>
    ensures { option_map view_of result ≡ step_read text.now }
{
    match behind_first(text, '<') {
        Some(rest) => read_bounded_step(rest),
        None => Some(TriggerStep::new(None, read_tests(text)?)),
    }
}

// A bound, a colon and the tests of a step.
#[tactic(auto, unfolding(crate::specs::Grammar::bounded_step, crate::specs::Grammar::both))]
fn read_bounded_step(text: &str) -> Option<TriggerStep>
    ensures { option_map view_of result ≡ bounded_step text.now }
{
    let (digits, tests) = cut(text, ':')?;
    let bound = read_bound(digits)?;
    let tests = read_tests(tests)?;
    Some(TriggerStep::new(Some(bound), tests))
}

// The tests of a step.
fn read_tests(text: &str) -> Option<ArrayVec<Test, 8>>
    ensures { option_map (λ tests. tests.items) result ≡ tests_of text.now }
{
    let mut tests: ArrayVec<Test, 8> = ArrayVec::new();
    let mut rest = text;
    while let Some((first, more)) = cut(rest, ',') {
        tests = with_test(tests, first)?;
        rest = more;
    }
    with_test(tests, rest)
}

// These tests and one more, where there is room for it.
#[tactic(auto, unfolding(crate::specs::Grammar::next_of))]
fn with_test(mut tests: ArrayVec<Test, 8>, text: &str) -> Option<ArrayVec<Test, 8>>
    ensures { option_map (λ tests. tests.items) result ≡ next_of test_of tests.items text.now }
{
    if tests.is_full() {
        return None;
    }
    tests.push(read_test(text)?);
    Some(tests)
}

// A test.
#[tactic(auto, unfolding(crate::specs::Grammar::test_of))]
fn read_test(text: &str) -> Option<Test>
    ensures { result ≡ test_of text.now }
{
    match behind_first(text, '!') {
        Some(name) => Some(Test::NotAsserted(line_named(name)?)),
        None => read_plain_test(text),
    }
}

// A test of a line that is asserted, or of a word.
#[tactic(auto, unfolding(crate::specs::Grammar::plain_test))]
fn read_plain_test(text: &str) -> Option<Test>
    ensures { result ≡ plain_test text.now }
{
    match cut(text, '=') {
        Some((name, digits)) => word_test(name, read_hex(digits)?),
        None => Some(Test::Asserted(line_named(text)?)),
    }
}

// A test of the word of this name.
#[tactic(auto, unfolding(crate::specs::Grammar::word_test))]
fn word_test(name: &str, value: u64) -> Option<Test>
    ensures { result ≡ word_test name.now value }
{
    if name == "REQ" {
        request_test(value)
    } else if name == "A" {
        address_test(value)
    } else if name == "D" {
        Some(Test::Data(value))
    } else {
        None
    }
}

// A test of the request word.
#[tactic(auto, unfolding(crate::specs::Grammar::request_test))]
fn request_test(value: u64) -> Option<Test>
    ensures { result ≡ request_test value }
{
    if value < 32 {
        Some(Test::Request(value))
    } else {
        None
    }
}

// A test of the address word.
#[tactic(auto, unfolding(crate::specs::Grammar::address_test))]
fn address_test(value: u64) -> Option<Test>
    ensures { result ≡ address_test value }
{
    if value < 1 << 36 && value % 8 == 0 {
        Some(Test::Address(value / 8))
    } else {
        None
    }
}

// A bound: 1 to 6 decimal digits, and not 0.
#[tactic(auto, unfolding(crate::specs::Grammar::bound_of, crate::specs::Grammar::not_zero))]
fn read_bound(text: &str) -> Option<u32>
    ensures { result ≡ bound_of text.now }
{
    let bound = read_short(text.as_bytes())?;
    if bound == 0 { None } else { Some(bound) }
}

// A number of 1 to 6 decimal digits.
#[tactic(auto, using(crate::proofs::Decimals::short_room), unfolding(crate::specs::Grammar::short_number))]
fn read_short(digits: &[u8]) -> Option<u32>
    ensures { result ≡ short_number digits.now }
{
    if 1 <= digits.len() && digits.len() <= 6 {
        Some(decimal_digits(digits)? as u32)
    } else {
        None
    }
}

// A number of 1 to 16 hexadecimal digits of either case.
#[tactic(auto, unfolding(crate::specs::Grammar::hex_number))]
fn read_hex(text: &str) -> Option<u64>
    ensures { result ≡ hex_number text.now }
{
    let digits = text.as_bytes();
    if 1 <= digits.len() && digits.len() <= 16 {
        hex_digits(digits)
    } else {
        None
    }
}

// The number of so many hexadecimal digits.
fn hex_digits(digits: &[u8]) -> Option<u64>
    requires { length digits.now ≤ 16 }
    ensures { result ≡ number_behind 16 hex_value 0 digits.now }
{
    let mut number: u64 = 0;
    for digit in digits {
        number = number * 16 + u64::from(hex_value(*digit)?);
    }
    Some(number)
}

// The value of a hexadecimal digit.
#[tactic(auto, unfolding(crate::specs::Grammar::hex_value))]
fn hex_value(digit: u8) -> Option<u8>
    ensures value { result ≡ hex_value digit }
    ensures below { IfSome result (λ value. value < 16) }
{
    match digit {
        b'0'..=b'9' => Some(digit - b'0'),
        b'a'..=b'f' => Some(digit - b'a' + 10),
        b'A'..=b'F' => Some(digit - b'A' + 10),
        _ => None,
    }
}

// The text before the first such byte and the text behind it, where there is one.
fn cut(text: &str, byte: char) -> Option<(&str, &str)>
    requires { byte < 128 }
    ensures value { option_map (λ cut. (cut.0.now, cut.1.now)) result ≡ cut_of byte text.now }
    ensures shorter { IfSome result (λ cut. length cut.1.now < length text.now) }
{
    text.split_once(byte)
}

// What stands behind this first byte.
fn behind_first(text: &str, byte: char) -> Option<&str>
    requires { byte < 128 }
    ensures { option_map (λ rest. rest.now) result ≡ behind_first byte text.now }
{
    text.strip_prefix(byte)
}
