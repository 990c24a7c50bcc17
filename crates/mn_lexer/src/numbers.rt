//! The values of numbers, and whether they are within the limit.
ghost use Rattle.std.specs.Prelude.{◌≡◌, ◌≤◌, ◌<◌, IsTrue, MatchOption, ◌↔◌};
ghost use Rattle.std.specs.List.{list_all};
ghost use Rattle.std.specs.Char.{is_ascii_digit};
ghost use Rattle.std.specs.Str.Parse.{digits_value};
ghost use Rattle.mn_lexer.specs.Forms.{IsNumber};
ghost use Rattle.mn_lexer.specs.Numbers.{number_value, without_sign, IsWithinLimit};

use super::NUMBER_LIMIT;

// The value of decimal digits, or None where it is past the limit.
fn value_of_digits(digits: &[u8]) -> Option<u64>
    requires { IsTrue (list_all is_ascii_digit digits.now) }
    ensures { MatchOption result
        (NUMBER_LIMIT < digits_value 10 digits.now)
        (λ value. (value ≤ NUMBER_LIMIT) × (value ≡ digits_value 10 digits.now)) }
{
    let mut value: u64 = 0;
    for digit in digits {
        value = value * 10 + u64::from(*digit - b'0');
        if value > NUMBER_LIMIT {
            return None;
        }
    }
    Some(value)
}

fn without_sign(bytes: &[u8]) -> &[u8]
    ensures { result.now ≡ without_sign bytes.now }
{
    match bytes {
        [b'-', digits @ ..] => digits,
        _ => bytes,
    }
}

/// Whether the value of a number is within the limit.
pub fn is_within_limit(bytes: &[u8]) -> bool
    requires { IsNumber bytes.now }
    ensures { IsTrue result ↔ IsWithinLimit (number_value bytes.now) }
{
    // Nine digits are too few to pass it.
    bytes.len() <= 9 || value_of_digits(without_sign(bytes)).is_some()
}

/// The value of a token of kind `Number`, by its bytes.
pub fn number_value(bytes: &[u8]) -> i64
    requires form { IsNumber bytes.now }
    requires in_limit { IsWithinLimit (number_value bytes.now) }
    ensures { result ≡ number_value bytes.now }
{
    let value = value_of_digits(without_sign(bytes)).unwrap() as i64;
    if bytes[0] == b'-' { -value } else { value }
}
