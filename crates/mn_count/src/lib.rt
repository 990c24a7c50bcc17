//! Propagators of constraints that count equal values, or values that differ: `alldiff`, `occurrence`, `occurrenceleq`,
//! `occurrencegeq`, `hamming` and `nvalueleq`.
//!
//! A `Count` narrows the places of one such constraint, with the promises of a `Runner`. `alldiff` has level Fixed: a value goes
//! from a place where another place has it alone. Where the declared values stand close together, a pass takes all of them out
//! of the open places at once, and goes on until no more places have one value alone. The three of occurrences have level
//! Arc: values go only where the value stands as often as it may, or can stand only as often as it has to. `hamming` has
//! level Arc: values go only where no more pairs of places can differ than have to. A choice takes one value for each place, so
//! a variable that stands at two places counts as two. `nvalueleq` is checked forward.
//!
//! The crate stands on `mn_prop`, which says what a propagator owes, and on `mn_closure`, `mn_boxes`, `mn_domains`,
//! `mn_meaning` and `mn_model`.
#![tactic(auto)]

mod alldiff;
mod changes;
mod count;
mod dense;
mod hamming;
mod occurrence;
mod open;
mod pair;
mod rounds;
mod taken;

pub use alldiff::Alldiff;
pub use count::Count;
pub use dense::Dense;
pub use hamming::Hamming;
pub use occurrence::{Amount, Occurrence};
pub use std::alloc::AllocError as NoMemory;
