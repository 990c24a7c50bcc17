//! The theory of readers that accept exactly a language, and refuse exactly at the right token with
//! the right kind.
//!
//! A language is given by trees, their spelling as tokens, and the conditions that a tree breaks, each
//! at a token. `IsText` says which lists of tokens are a text, `IsRefusedAt` at which token and why a
//! list is refused. Readers are built of a few parts, and each part keeps the law of a reader
//! (`Lawful`): so a reader for a whole language is lawful by its parts, and what is lawful is exact.
//! The crates above state the language and cite the lemmas of `proofs/`.
//!
//! The crate stands on `mn_lexer`, whose tokens it reads.
#![tactic(auto)]

ghost use Rattle.std.specs.Prelude.{◌≡◌};
ghost use Rattle.mn_grammar.specs.Reading.{renamed};
ghost use Rattle.mn_grammar.specs.declared.Stop.TheVariants.{NoMemory};
ghost use Rattle.mn_grammar.specs.Laws.{OneRefusal, NoTextRefused, LawfulIsExact, SomeVerdict, OneVerdict};

mod site;

use mn_lexer::LexFault;
pub use site::{Site, is_known_head, is_name, kind_at};
use std::alloc::{AllocError, AllocFailed};

/// The limits that a list of tokens can pass.
#[derive(Clone, Copy, Debug, PartialEq, Eq)]
pub enum Limit {
    Variables,
    Constraints,
    Cells,
    Nesting,
    Span,
    Vector,
}

/// Why a list of tokens is refused.
#[derive(Clone, Copy, Debug, PartialEq, Eq)]
pub enum Kind {
    /// No token begins behind the list.
    Lex,
    /// A number past the limit stands behind the list.
    NumberRange,
    /// A word, head or number that isn't known where only known ones may stand.
    Unsupported,
    /// No text begins so.
    Syntax,
    /// An item that may stand once and stands again. In public it is called `Unsupported`.
    Again,
    /// A name that is unknown, or that is declared a second time.
    Name,
    /// A domain without a value.
    EmptyDomain,
    /// A limit is passed.
    Limit(Limit),
    /// Every other condition.
    Shape,
}

/// Where and why a reader stopped: how many tokens were left, the refused one among them, and the kind.
#[derive(Clone, Copy, Debug, PartialEq, Eq)]
pub struct Fault {
    pub left: usize,
    pub kind: Kind,
}

/// Why reading ended without a value.
#[derive(Clone, Copy, Debug, PartialEq, Eq)]
pub enum Stop {
    /// The list is refused.
    Refused(Fault),
    /// Memory ran out.
    NoMemory,
}

impl From<AllocError> for Stop {
    ghost from_gives = { λ _ e. e ≡ NoMemory };

    fn from(_e: AllocError) -> Stop {
        Stop::NoMemory
    }
}

impl<T: Drop> From<AllocFailed<T>> for Stop {
    ghost from_gives = { λ _ e. e ≡ NoMemory };

    fn from(_e: AllocFailed<T>) -> Stop {
        Stop::NoMemory
    }
}

/// The same fault, where `stop` is what ended the list of tokens: at the list's end the kind is that
/// of the lexical fault, if one stands there.
pub fn renamed(fault: Fault, stop: Option<LexFault>) -> Fault
    ensures { result ≡ renamed stop fault }
{
    if fault.left > 0 {
        return fault;
    }
    let kind = match stop {
        None => Kind::Syntax,
        Some(LexFault::Lex(_)) => Kind::Lex,
        Some(LexFault::NumberRange(_)) => Kind::NumberRange,
    };
    Fault { left: 0, kind }
}

/// A law of every language whose trees are of the type `X`: a list of tokens is refused at one place
/// and with one kind, and no text is refused.
pub fn one_refusal<X>()
    ensures one { OneRefusal X }
    ensures no_text { NoTextRefused X }
{}

/// A law of every lawful reader of whole texts, whose trees are of the type `X` and stand for values
/// of the type `V`: it answers the values of the texts, and the refusals of all other lists.
pub fn lawful_is_exact<X, V>()
    ensures { LawfulIsExact X V }
{}

/// So where a language has a lawful reader, each list of tokens has a verdict, and only one: the value
/// that it stands for, or a place and a kind.
pub fn one_verdict<X, V>()
    ensures some { SomeVerdict X V }
    ensures one { OneVerdict X V }
{}
