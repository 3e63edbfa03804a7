//! The numbers of a command line.

ghost use Rattle.std.specs.Prelude.{◌≡◌, ◌≤◌, ◌<◌, ◌^◌, IfSome};
ghost use Rattle.scope_words.specs.Numbers.{count_in, number_in, rule_in};

use fsb_trigger::decimal_digits;

/// A number of 1 to `most` decimal digits.
#[tactic(auto, unfolding(crate::specs::Numbers::number_in))]
pub(crate) fn read_number(most: usize, word: &[u8]) -> Option<u64>
    requires { most ≤ 19 }
    ensures { result ≡ number_in most word.now }
{
    if 1 <= word.len() && word.len() <= most {
        decimal_digits(word)
    } else {
        None
    }
}

/// A number of clocks, or the number of one: 1 to 10 decimal digits, below 2^32.
#[tactic(auto, unfolding(crate::specs::Numbers::count_in, crate::specs::Numbers::small))]
pub fn read_count(word: &[u8]) -> Option<u32>
    ensures { result ≡ count_in word.now }
{
    let number = read_number(10, word)?;
    if number < 1 << 32 {
        Some(number as u32)
    } else {
        None
    }
}

/// The number of a rule: 1 to 31, with 1 or 2 decimal digits.
#[tactic(auto, unfolding(crate::specs::Numbers::rule_in, crate::specs::Numbers::as_rule))]
pub fn read_rule(word: &[u8]) -> Option<u8>
    ensures rule { result ≡ rule_in word.now }
    ensures within { IfSome result (λ n. (1 ≤ n) × (n ≤ 31)) }
{
    let number = read_number(2, word)?;
    if 1 <= number && number <= 31 {
        Some(number as u8)
    } else {
        None
    }
}
