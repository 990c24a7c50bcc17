//! What a text is told that is refused: from what stopped its reading to a refusal at a byte.
ghost use Rattle.std.specs.Prelude.{◌≡◌};
ghost use Rattle.mn_cursor.specs.Progress.{byte_of, end_of, refusal_at, refusal_by, which_of_limit};

use crate::Cursor;
use mn_grammar::{Kind, Limit, Stop, renamed};
use mn_lexer::LexFault;
use mn_model::{Refusal, Which};

fn which_of(limit: Limit) -> Which
    ensures { result ≡ which_of_limit limit }
{
    match limit {
        Limit::Variables => Which::Variables,
        Limit::Constraints => Which::Constraints,
        Limit::Cells => Which::Cells,
        Limit::Nesting => Which::Nesting,
        Limit::Span => Which::Span,
        Limit::Vector => Which::Vector,
    }
}

/// The refusal of a kind at a byte.
fn refusal_at(kind: Kind, at: u64) -> Refusal
    ensures { result ≡ refusal_at kind at }
{
    match kind {
        Kind::Lex => Refusal::Lex(at),
        Kind::NumberRange => Refusal::NumberRange(at),
        Kind::Unsupported => Refusal::Unsupported(at),
        Kind::Syntax => Refusal::Syntax(at),
        Kind::Again => Refusal::Unsupported(at),
        Kind::Name => Refusal::Name(at),
        Kind::EmptyDomain => Refusal::EmptyDomain(at),
        Kind::Limit(limit) => Refusal::Limit(which_of(limit), at),
        Kind::Shape => Refusal::Shape(at),
    }
}

impl<'a> Cursor<'a> {
    /// The byte where the tokens end.
    fn end(&self) -> u64
        ensures { result ≡ end_of self.now.text self.now.stop }
    {
        match self.stop() {
            None => self.text().len() as u64,
            Some(LexFault::Lex(at)) => at,
            Some(LexFault::NumberRange(at)) => at,
        }
    }

    /// What a text is told that is refused, or for which memory doesn't suffice.
    pub fn refusal(&self, stop: Stop) -> Refusal
        ensures { result ≡ refusal_by self.now stop }
    {
        match stop {
            Stop::Refused(fault) => {
                let fault = renamed(fault, self.stop());
                refusal_at(fault.kind, self.byte_of(fault.left))
            }
            Stop::NoMemory => Refusal::NoMemory,
        }
    }

    /// The byte of the token with which so many are left.
    fn byte_of(&self, left: usize) -> u64
        ensures { result ≡ byte_of self.now left }
    {
        let tokens = self.tokens();
        let place = tokens.len().saturating_sub(left);
        if place < tokens.len() {
            u64::from(tokens.get(place).at)
        } else {
            self.end()
        }
    }
}
