//! The numbers that words write.
ghost use Rattle.std.specs.Prelude.{◌≡◌, ◌≤◌, length, IsTrue};
ghost use Rattle.std.specs.List.{list_all};
ghost use Rattle.std.specs.Char.{is_ascii_digit};
ghost use Rattle.std.specs.Str.Parse.{digits_value};
ghost use Rattle.mn_options.specs.Limits.{is_number, is_size, limit_in, number_in, size_in};

use mn_gen::GREATEST_SIZE;

/// The most digits that a number has.
pub const MOST_DIGITS: usize = 18;

fn are_digits(word: &[u8]) -> bool
    ensures { result ≡ list_all is_ascii_digit word.now }
{
    word.iter().all(|byte| byte.is_ascii_digit())
}

fn is_number(word: &[u8]) -> bool
    ensures { result ≡ is_number word.now }
{
    1 <= word.len() && word.len() <= MOST_DIGITS && are_digits(word)
}

fn value_of_digits(digits: &[u8]) -> u64
    requires digits { IsTrue (list_all is_ascii_digit digits.now) }
    requires few { length digits.now ≤ MOST_DIGITS }
    ensures { result ≡ digits_value 10 digits.now }
{
    let mut value: u64 = 0;
    for digit in digits {
        value = value * 10 + u64::from(*digit - b'0');
    }
    value
}

/// The number, if the word writes one.
pub fn number_in(word: &[u8]) -> Option<u64>
    ensures { result ≡ number_in word.now }
{
    if is_number(word) {
        Some(value_of_digits(word))
    } else {
        None
    }
}

/// The limit, if the word writes one: a number other than 0.
pub fn limit_in(word: &[u8]) -> Option<u64>
    ensures { result ≡ limit_in word.now }
{
    if !is_number(word) {
        return None;
    }
    match value_of_digits(word) {
        0 => None,
        limit => Some(limit),
    }
}

fn is_size(n: u64) -> bool
    ensures { result ≡ is_size n }
{
    1 <= n && n <= GREATEST_SIZE
}

/// The size of a generated model, if the word writes one.
pub fn size_in(word: &[u8]) -> Option<u64>
    ensures { result ≡ size_in word.now }
{
    if !is_number(word) {
        return None;
    }
    let n = value_of_digits(word);
    if is_size(n) { Some(n) } else { None }
}
