//! The rules that words can break.
ghost use Rattle.std.specs.Prelude.{◌≡◌};
ghost use Rattle.mn_options.specs.declared.usage.Usage.TheVariants.{NoMemory};

use std::alloc::{AllocError, AllocFailed};

/// Which rule the words break. The number is that of the word, counted from 0.
#[derive(Clone, Copy, Debug, PartialEq, Eq)]
pub enum Usage {
    /// A word in an option's place that begins with `-` and isn't in the table, or a word that isn't known in its place.
    Unknown(u64),
    /// An option has too few words after it.
    MissingValue(u64),
    /// A number is wanted, and the word isn't one that may stand here.
    BadNumber(u64),
    /// The option was there before.
    Twice(u64),
    /// All words are lawful, and there is no model: none is named, and none is to be generated.
    NoModel,
    /// The word names a model, and one was named before.
    SecondModel(u64),
    /// The word excludes one before it: a model is named and another is to be generated.
    Clash(u64),
    /// Memory ran out.
    NoMemory,
}

impl From<AllocError> for Usage {
    ghost from_gives = { λ _ e. e ≡ NoMemory };

    fn from(_e: AllocError) -> Usage {
        Usage::NoMemory
    }
}

impl<T: Drop> From<AllocFailed<T>> for Usage {
    ghost from_gives = { λ _ e. e ≡ NoMemory };

    fn from(_e: AllocFailed<T>) -> Usage {
        Usage::NoMemory
    }
}
