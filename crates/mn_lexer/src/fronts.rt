//! What the rest of a text begins with: the longest token, or what is left of a comment.
ghost use Rattle.std.specs.Prelude.{◌≡◌, ◌<◌, length, take, drop, slice_index, IsTrue, MatchOption};
ghost use Rattle.std.specs.Char.{is_ascii_digit, is_ascii_uppercase};
ghost use Rattle.std.specs.List.{prefix_len, position_or_len};
ghost use Rattle.std.specs.Str.{byte};
ghost use Rattle.mn_lexer.specs.Bytes.{is_word_byte, is_line_feed};
ghost use Rattle.mn_lexer.specs.FirstBytes.{is_of_class};
ghost use Rattle.mn_lexer.specs.Forms.{IsLongest, BeginsNoToken};
ghost use Rattle.mn_lexer.specs.Reading.{IsAllowed, BeginsPastNumber};

use super::TokenKind;
use super::classes::{Class, is_word_byte};
use super::numbers::is_within_limit;

fn word_bytes(rest: &[u8]) -> usize
    ensures { result ≡ prefix_len is_word_byte rest.now }
{
    rest.iter().take_while(|byte| is_word_byte(**byte)).count()
}

fn digits(rest: &[u8]) -> usize
    ensures { result ≡ prefix_len is_ascii_digit rest.now }
{
    rest.iter().take_while(|byte| byte.is_ascii_digit()).count()
}

fn capitals(rest: &[u8]) -> usize
    ensures { result ≡ prefix_len is_ascii_uppercase rest.now }
{
    rest.iter()
        .take_while(|byte| byte.is_ascii_uppercase())
        .count()
}

// How many bytes of a comment come before the end of its line.
pub fn comment_bytes(rest: &[u8]) -> usize
    ensures { result ≡ position_or_len is_line_feed rest.now }
{
    rest.iter().take_while(|byte| **byte != b'\n').count()
}

// The length of the number that begins with the `-` at the front.
fn signed_len(rest: &[u8]) -> Option<usize>
    requires { slice_index rest.now 0 ≡ byte "-" }
    ensures { MatchOption result (BeginsNoToken rest.now) (IsLongest rest.now TokenKind.Number) }
{
    let count = digits(&rest[1..]);
    if count == 0 { None } else { Some(1 + count) }
}

// The length of the head that begins with the `*` at the front.
fn head_len(rest: &[u8]) -> Option<usize>
    requires { slice_index rest.now 0 ≡ byte "*" }
    ensures { MatchOption result (BeginsNoToken rest.now) (IsLongest rest.now TokenKind.Head) }
{
    if rest.len() < 2 || rest[1] != b'*' {
        return None;
    }
    let end = 2 + capitals(&rest[2..]);
    if end == 2 || rest.len() - end < 2 || rest[end] != b'*' || rest[end + 1] != b'*' {
        return None;
    }
    Some(end + 2)
}

// The length of the mark that begins with the `.` at the front.
fn dots_len(rest: &[u8]) -> Option<usize>
    requires { slice_index rest.now 0 ≡ byte "." }
    ensures { MatchOption result (BeginsNoToken rest.now) (IsLongest rest.now TokenKind.Mark) }
{
    if rest.len() > 1 && rest[1] == b'.' {
        Some(2)
    } else {
        None
    }
}

// The longest token at the front, whose first byte is of this class: its kind and its length.
pub fn front(rest: &[u8], class: Class) -> Option<(TokenKind, usize)>
    requires { IsTrue (is_of_class class (slice_index rest.now 0)) }
    ensures { MatchOption result
        (BeginsNoToken rest.now)
        (λ found. IsLongest rest.now found.0 found.1) }
{
    match class {
        Class::Letter => Some((TokenKind::Word, word_bytes(rest))),
        Class::Digit => Some((TokenKind::Number, digits(rest))),
        Class::Minus => Some((TokenKind::Number, signed_len(rest)?)),
        Class::Star => Some((TokenKind::Head, head_len(rest)?)),
        Class::Mark => Some((TokenKind::Mark, 1)),
        Class::Dot => Some((TokenKind::Mark, dots_len(rest)?)),
        Class::Blank | Class::Hash | Class::Other => None,
    }
}

// The length of the word at a place.
pub fn word_len(text: &[u8], at: usize) -> usize
    requires in_text { at < length text.now }
    requires start { IsTrue (is_of_class Class.Letter (slice_index text.now at)) }
    ensures { IsLongest (drop at text.now) TokenKind.Word result }
{
    word_bytes(&text[at..])
}

// The length of the number with no sign at a place, or None where it is past the limit.
pub fn digits_len(text: &[u8], at: usize) -> Option<usize>
    requires in_text { at < length text.now }
    requires start { IsTrue (is_of_class Class.Digit (slice_index text.now at)) }
    ensures { MatchOption result
        (BeginsPastNumber (drop at text.now))
        (λ len. IsLongest (drop at text.now) TokenKind.Number len × IsAllowed TokenKind.Number (take len (drop at text.now))) }
{
    let rest = &text[at..];
    let len = digits(rest);
    if is_within_limit(&rest[..len]) {
        Some(len)
    } else {
        None
    }
}
