//! Settling: the sets of all variables are narrowed to the greatest box that is closed under all constraints.
//!
//! An `Engine` has an instance, its sets and a propagator for each of its constraints. `settle` leaves exactly the
//! closure of the sets, and fails exactly where there is none, whatever the propagators are and in whatever order they
//! run. `push`, `decide` and `back` are what a search does to the sets in between.
//!
//! The crate stands on `mn_boxes`, `mn_closure`, `mn_domains`, `mn_meaning`, `mn_model` and `mn_prop`.
#![tactic(auto)]

mod engine;
mod rounds;

pub use engine::{Engine, Failed};
pub use mn_prop::Make;
pub use std::alloc::AllocError as NoMemory;
