//! Propagators of the constraints of one place and of two, and what propagates any constraint.
//!
//! A `Basic` narrows the places of one constraint, with the promises of a `Runner`. Constraints of one or two places have all
//! their values supported at level Arc; every other one, and each that stands around others, is checked forward.
//!
//! Each kind has its file. The crate stands on `mn_prop`, which says what a propagator owes, and on `mn_closure`, `mn_boxes`,
//! `mn_domains`, `mn_meaning` and `mn_model`.
#![tactic(auto)]

mod basic;
mod differ;
mod ineq;
mod interval;
mod numbers;
mod tie;
mod unary;

pub use basic::Basic;
pub use differ::Differ;
pub use ineq::{Ineq, Order};
pub use numbers::Numbers;
pub use std::alloc::AllocError as NoMemory;
pub use tie::{Tie, Tied};
pub use unary::Unary;
