//! One growing block of words that is copied at a branch of the search and copied back.
//!
//! `Block` hands out places, which stay right while it grows, `save` puts a copy of all words on a
//! `Stack`, and `restore` makes the last copy the words again. `words` has the row of words that
//! both are made of, for the crates above. Contracts see lists of words alone. The memory is raw:
//! the six functions with raw pointers are in `cells`, and what they own is freed at its end, since
//! the right to free it is a value that can't be dropped. The crate stands on std alone.
#![tactic(auto)]

mod block;
mod cells;
mod stack;
pub mod words;

pub use block::{Block, Place};
pub use stack::Stack;
