//! Decimal digits.

ghost use Rattle.std.specs.Prelude.{◌≡◌, ◌<◌, ◌≤◌, ◌^◌, IfSome, length};
ghost use Rattle.fsb_trigger.specs.Grammar.{decimal_value, number_behind};

/// The number that decimal digits make, 0 where there are none; none where not all are such digits.
pub fn decimal_digits(digits: &[u8]) -> Option<u64>
    requires { length digits.now ≤ 19 }
    ensures value { result ≡ number_behind 10 decimal_value 0 digits.now }
    ensures below { IfSome result (λ number. number < 10 ^ length digits.now) }
{
    let mut number: u64 = 0;
    for digit in digits {
        number = number * 10 + u64::from(decimal_value(*digit)?);
    }
    Some(number)
}

// The value of a decimal digit.
#[tactic(auto, unfolding(crate::specs::Grammar::decimal_value))]
fn decimal_value(digit: u8) -> Option<u8>
    ensures value { result ≡ decimal_value digit }
    ensures below { IfSome result (λ value. value < 10) }
{
    match digit {
        b'0'..=b'9' => Some(digit - b'0'),
        _ => None,
    }
}
