//! The lexer of the Minion 3 language: it cuts a text into its tokens, up to the first `**EOF**` or
//! the first fault.
//!
//! A token is a word, a number, a head such as `**SEARCH**` or a mark, always the longest that begins
//! at its place. Blanks and comments may stand between tokens. `tokens` answers the one list of tokens
//! that the text has, and where a fault ends it, that fault and its place: `IsLexed` says so for every
//! text.
//!
//! The crate stands on std alone.
#![tactic(auto)]

ghost use Rattle.std.specs.Prelude.{◌≡◌, ◌+◌, ◌≤◌, ◌<◌, length, slice_index, IsTrue, IfOk, OnOk, All, ◌∷◌, ◌++◌, []};
ghost use Rattle.mn_lexer.specs.FirstBytes.{is_of_class};
ghost use Rattle.mn_lexer.specs.Reading.{IsLexed, IsTokenOf, OneReading, is_end, next_place};
ghost use Rattle.mn_lexer.specs.Next.{IsNextFrom};

use classes::{Class, class_of};
use fronts::{comment_bytes, digits_len, front, word_len};
use numbers::is_within_limit;
use std::alloc::Global;

mod classes;
mod fronts;
mod listing;
mod marks;
mod numbers;

pub use listing::Tokens;
pub use marks::{Mark, mark_of};
pub use numbers::number_value;
pub use std::alloc::AllocError as NoMemory;

/// The most bytes that a text may have.
pub const TEXT_LIMIT: usize = 67_108_864;

/// The greatest value of a number. The least is its negative.
pub const NUMBER_LIMIT: u64 = 1_000_000_000;

/// The four kinds of token.
#[derive(Clone, Copy, Debug, PartialEq, Eq)]
pub enum TokenKind {
    Word,
    Number,
    Head,
    Mark,
}

/// A token of a text: its kind, the place of its first byte, and how many bytes it has.
#[derive(Clone, Copy, Debug, PartialEq, Eq)]
pub struct Token {
    pub kind: TokenKind,
    pub at: u32,
    pub len: u32,
}

/// What ends a list of tokens before the text's end, and the place where it stands.
#[derive(Clone, Copy, Debug, PartialEq, Eq)]
pub enum LexFault {
    /// No token begins there, no blank and no comment.
    Lex(u64),
    /// A number past the limit.
    NumberRange(u64),
}

/// The tokens of a text, and the fault that ends them, if one does.
#[derive(Debug, Drop)]
pub struct Lexed {
    pub list: Tokens,
    /// None where the list ends with `**EOF**` or with the text.
    pub stop: Option<LexFault>,
}

// What stands at a place: a token, or the end of the list.
enum Next {
    Token(Token),
    Stop(Option<LexFault>),
}

// What stands at a place that is in no gap, where the byte is of this class.
fn token_at(text: &[u8], at: usize, class: Class) -> Next
    requires size { length text.now ≤ TEXT_LIMIT }
    requires in_text { at < length text.now }
    requires of_class { IsTrue (is_of_class class (slice_index text.now at)) }
    requires in_no_gap { next_place text.now at ≡ at }
    ensures { IsNextFrom text.now at result }
{
    let rest = &text[at..];
    let Some((kind, len)) = front(rest, class) else {
        return Next::Stop(Some(LexFault::Lex(at as u64)));
    };
    if kind == TokenKind::Number && !is_within_limit(&rest[..len]) {
        return Next::Stop(Some(LexFault::NumberRange(at as u64)));
    }
    Next::Token(Token {
        kind,
        at: at as u32,
        len: len as u32,
    })
}

// Whether the token is `**EOF**`.
fn is_end(text: &[u8], token: Token) -> bool
    requires { token.at + token.len ≤ length text.now }
    ensures { result ≡ is_end text.now token }
{
    let at = token.at as usize;
    let end = at + token.len as usize;
    &text[at..end] == b"**EOF**".as_slice()
}

// One more token. Answers the place behind it.
fn add(list: &mut Tokens, kind: TokenKind, at: usize, len: usize) -> Result<usize, NoMemory>
    requires { at + len ≤ TEXT_LIMIT }
    ensures place { IfOk result (λ to. to ≡ at + len) }
    ensures list { OnOk result (list.new ≡ list.old ++ record { kind = kind; at = at; len = len } ∷ []) }
{
    list.push(Token {
        kind,
        at: at as u32,
        len: len as u32,
    })?;
    Ok(at + len)
}

/// The tokens of a text, up to the first `**EOF**`, the first fault or the end of the text. It takes
/// one pass, and no memory but that of the list.
pub fn tokens(alloc: Global, text: &[u8]) -> Result<Lexed, NoMemory>
    requires { length text.now ≤ TEXT_LIMIT }
    // This is the one reading of the text: which tokens it has, and which fault ends them.
    ensures lexed { IfOk result (λ l. IsLexed text.now l.list l.stop) }

    // So each token's bytes lie in the text, have the form of its kind, and keep the limit.
    ensures each { IfOk result (λ l. All (IsTokenOf text.now) l.list) }
{
    let mut list = Tokens::new(alloc);
    let mut at = 0;
    while at < text.len() {
        match class_of(text[at]) {
            Class::Blank => at += 1,
            Class::Hash => at = at + 1 + comment_bytes(&text[at + 1..]),
            // Most tokens are of these three classes, and each class adds its own.
            Class::Mark => at = add(&mut list, TokenKind::Mark, at, 1)?,
            Class::Letter => at = add(&mut list, TokenKind::Word, at, word_len(text, at))?,
            Class::Digit => match digits_len(text, at) {
                Some(len) => at = add(&mut list, TokenKind::Number, at, len)?,
                None => {
                    let stop = Some(LexFault::NumberRange(at as u64));
                    return Ok(Lexed { list, stop });
                }
            },
            class => match token_at(text, at, class) {
                Next::Stop(stop) => return Ok(Lexed { list, stop }),
                Next::Token(token) => {
                    list.push(token)?;
                    if is_end(text, token) {
                        return Ok(Lexed { list, stop: None });
                    }
                    at = token.at as usize + token.len as usize;
                }
            },
        }
    }
    Ok(Lexed { list, stop: None })
}

/// A law: no text has two lists of tokens.
pub fn one_reading()
    ensures { OneReading }
{}

#[cfg(test)]
mod tests;
