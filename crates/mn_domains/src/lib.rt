//! The sets of values that a search works on: the declared ones at first, then what changes have left of them.
//!
//! `Doms` has one set for each variable. A change keeps the values that pass a test and says what moved, and answers
//! `Emptied` exactly where none would stay. `save` keeps a copy of all sets, and `restore` goes back to the last one.
//! Contracts see the variables, their sets as ascending lists, and the saved ones. Whatever is done, the sets are a box.
//!
//! A BOUND variable is held by its two ends, a SPARSEBOUND one by a part of its declared values, a BOOL or DISCRETE one
//! by a bit for each value. Only `build` and `save` take memory. The crate stands on `mn_boxes` and `mn_model`.
#![tactic(auto)]

mod doms;
mod layout;
mod listed;
mod marked;
mod rows;
mod shape;
mod state;

pub use doms::{Doms, Emptied};
pub use mn_boxes::Moved;
pub use std::alloc::AllocError as NoMemory;
