//! Propagators of sums: `sumleq`, `sumgeq`, `weightedsumleq`, `weightedsumgeq`, `watchsumleq`, `watchsumgeq` and `litsumgeq`.
//!
//! A `Sum` narrows the places of one constraint, with the promises of a `Runner`. All seven kinds are one: each place adds a
//! part, and all together is at most a bound. A value is supported exactly where it adds no more than the bound leaves it
//! when each other place adds its least. So one loop over the places tells which of them have a value to take.
//!
//! The crate stands on `mn_prop`, which says what a propagator owes, and on `mn_closure`, `mn_boxes`, `mn_domains`,
//! `mn_meaning` and `mn_model`.
#![tactic(auto)]

mod build;
mod part;
mod sum;

pub use part::Part;
pub use std::alloc::AllocError as NoMemory;
pub use sum::Sum;
