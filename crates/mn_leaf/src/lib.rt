//! What narrows a constraint, whatever its kind.
//!
//! A `Leaf` is the propagator of one constraint, with the promises of a `Runner`: `build` takes it from the crate of the
//! constraint's kind. The engine of the program runs over it.
//!
//! The crate stands on the crates of the kinds (`mn_basic`, `mn_sums`, `mn_arith`, `mn_element`, `mn_table`, `mn_count` and
//! `mn_lex`), on `mn_prop`, which says what a propagator owes, and on `mn_closure`, `mn_boxes`, `mn_domains`, `mn_meaning`
//! and `mn_model`.
#![tactic(auto)]

mod leaf;

pub use leaf::Leaf;
pub use std::alloc::AllocError as NoMemory;
