//! The numbers of a command line.
ghost use Rattle.std.specs.Prelude.{◌≡◌, ◌≤◌, ◌+◌, ◌*◌, ◌^◌};
ghost use Rattle.fsb_command.specs.Number.{agents_named, below, clock_named, decimal_word, items_named, seed_named, up_to};

use fsb_trigger::decimal_digits;

/// A seed: 1 to 20 decimal digits, below 2^64.
#[tactic(auto, unfolding(crate::specs::Number::seed_named))]
pub(crate) fn read_seed(word: &str) -> Option<u64>
    ensures { result ≡ seed_named word.now }
{
    let digits = word.as_bytes();
    if digits.is_empty() || digits.len() > 20 {
        return None;
    }
    let (front, last) = digits.split_at(digits.len() - 1);
    with_digit(decimal_digits(front)?, decimal_digits(last)?)
}

// A number and one more digit behind it, below 2^64.
#[tactic(auto, unfolding(crate::specs::Number::below))]
fn with_digit(front: u64, last: u64) -> Option<u64>
    ensures { result ≡ below (2 ^ 64) (front * 10 + last) }
{
    front.checked_mul(10)?.checked_add(last)
}

/// A number of agents: 1 to 4 decimal digits, from 1 to 4.
#[tactic(auto, unfolding(crate::specs::Number::agents_named, crate::specs::Number::up_to))]
pub(crate) fn read_agents(word: &str) -> Option<u8>
    ensures { result ≡ agents_named word.now }
{
    let number = decimal_word(word, 4)?;
    if 1 <= number && number <= 4 {
        Some(number as u8)
    } else {
        None
    }
}

/// A number of items: 1 to 4 decimal digits, from 1 to 4,096.
#[tactic(auto, unfolding(crate::specs::Number::items_named, crate::specs::Number::up_to))]
pub(crate) fn read_items(word: &str) -> Option<u16>
    ensures { result ≡ items_named word.now }
{
    let number = decimal_word(word, 4)?;
    if 1 <= number && number <= 4096 {
        Some(number as u16)
    } else {
        None
    }
}

/// The number of a clock of a dump: 1 to 10 decimal digits, below 2^32.
#[tactic(auto, unfolding(crate::specs::Number::clock_named, crate::specs::Number::below))]
pub(crate) fn read_clock(word: &str) -> Option<u32>
    ensures { result ≡ clock_named word.now }
{
    let number = decimal_word(word, 10)?;
    if number < 1 << 32 {
        Some(number as u32)
    } else {
        None
    }
}

// A number of 1 to `most` decimal digits.
#[tactic(auto, unfolding(crate::specs::Number::decimal_word))]
fn decimal_word(word: &str, most: usize) -> Option<u64>
    requires { most ≤ 19 }
    ensures { result ≡ decimal_word most word.now }
{
    let digits = word.as_bytes();
    if 1 <= digits.len() && digits.len() <= most {
        decimal_digits(digits)
    } else {
        None
    }
}
