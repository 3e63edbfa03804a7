//! Decimal numbers.

ghost use Rattle.std.specs.Prelude.{◌≡◌, ◌≤◌, ◌+◌, ◌-◌, ◌*◌, ◌^◌, IfSome, IfNone};
ghost use Rattle.vcd_grammar.specs.Digits.{is_digit, number_up_to};

fn is_digit(byte: u8) -> bool
    ensures { result ≡ is_digit byte }
{
    48 <= byte && byte <= 57
}

/// The number with one more digit, where it fits.
fn next_number(number: u64, byte: u8) -> Option<u64>
    requires { 48 ≤ byte }
    ensures fits { IfSome result (λ n. n ≡ number * 10 + (byte - 48)) }
    ensures past { IfNone result (2 ^ 64 ≤ number * 10 + (byte - 48)) }
{
    let tens = number.checked_mul(10)?;
    tens.checked_add(u64::from(byte - 48))
}

/// The decimal number that a word is, where it is one and not above the limit.
pub fn number_up_to(limit: u64, word: &[u8]) -> Option<u64>
    ensures { result ≡ number_up_to limit word.now }
{
    if word.is_empty() {
        return None;
    }
    let mut number: u64 = 0;
    for byte in word {
        if !is_digit(*byte) {
            return None;
        }
        match next_number(number, *byte) {
            Some(more) => number = more,
            None => return None,
        }
    }
    if number <= limit { Some(number) } else { None }
}
