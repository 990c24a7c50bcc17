//! Which variable a search branches on next, by the sizes of the sets of values.
//!
//! `fixed`, `smallest`, `largest` and `ratio` name a place of two lists of sizes, those now and those declared. The
//! definition `choose` of `specs/` says which place each choice names. A `Chooser` keeps a choice and a `Rule` that
//! answers it, with the fact that it does. Nothing here takes memory.
//!
//! The crate stands on std alone.
#![tactic(auto)]

mod choice;
mod chooser;
mod rule;
mod scan;
#[cfg(test)]
mod tests;

pub use choice::Choice;
pub use chooser::Chooser;
pub use rule::{ByLargest, ByOrder, ByRatio, BySmallest, Rule};
pub use scan::{fixed, largest, ratio, smallest};
