//! Propagators of the constraints of arithmetic: differences, products, quotients and remainders, greatest and least.
//!
//! An `Arith` narrows the places of one constraint, with the promises of a `Runner`.
//!
//! Each kind has its file. The crate stands on `mn_prop`, which says what a propagator owes, and on `mn_closure`, `mn_boxes`,
//! `mn_domains`, `mn_meaning` and `mn_model`.
#![tactic(auto)]

mod arith;
mod declared;
mod extreme;
mod extremum;
mod found;
mod hull;
mod product;
mod span;

pub use arith::Arith;
pub use extreme::Extreme;
pub use extremum::Extremum;
pub use found::Found;
pub use hull::{Computed, Operation};
pub use std::alloc::AllocError as NoMemory;
