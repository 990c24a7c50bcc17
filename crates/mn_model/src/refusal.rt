//! Why a text is refused.
ghost use Rattle.std.specs.Prelude.{◌≡◌};
ghost use Rattle.mn_model.specs.declared.refusal.Refusal.TheVariants.{NoMemory};

use std::alloc::{AllocError, AllocFailed};

/// Why a text is refused. The number is the place: the offset of a byte, counted from 0.
#[derive(Clone, Copy, Debug, PartialEq, Eq)]
pub enum Refusal {
    /// No token begins here.
    Lex(u64),
    /// A number past the limits of the language.
    NumberRange(u64),
    /// The grammar has no text that begins so.
    Syntax(u64),
    /// A name that is unknown, or that is declared a second time.
    Name(u64),
    /// A condition of the language other than those named here is broken.
    Shape(u64),
    /// A domain without a value.
    EmptyDomain(u64),
    /// This limit of the language is passed.
    Limit(Which, u64),
    /// A word that this program doesn't know where it has words of its own.
    Unsupported(u64),
    /// Memory ran out.
    NoMemory,
}

/// The limits that a text can pass.
#[derive(Clone, Copy, Debug, PartialEq, Eq)]
pub enum Which {
    /// `TEXT_BYTES`: the bytes of the text.
    Text,
    /// `VARIABLES`: the variables.
    Variables,
    /// `CONSTRAINTS`: the constraints, without those that are nested in others.
    Constraints,
    /// `CELLS`: the cells of all tuples together.
    Cells,
    /// `NESTING`: the forms that stand inside one another.
    Nesting,
    /// `SPAN`: the values of one domain.
    Span,
    /// `PLACES`: the places of one vector, of VARORDER or of one row of PRINT.
    Vector,
}

impl From<AllocError> for Refusal {
    ghost from_gives = { λ _ e. e ≡ NoMemory };

    fn from(_e: AllocError) -> Refusal {
        Refusal::NoMemory
    }
}

impl<T: Drop> From<AllocFailed<T>> for Refusal {
    ghost from_gives = { λ _ e. e ≡ NoMemory };

    fn from(_e: AllocFailed<T>) -> Refusal {
        Refusal::NoMemory
    }
}
