//! Lists of triggers between which a trigger moves in constant time, a walk along a list, and two
//! first-in first-out queues in which each number stands at most once.
//!
//! Each trigger stands on exactly one list. `move_to` puts it at the front of a list and changes
//! nothing else. A walk meets what stood on its list when it began and wasn't moved since, once and
//! in order. Only `Lists::new` takes memory. Contracts see lists of numbers alone. The nodes and the
//! queues lie in rows of words of mn_block, on which the crate stands, and which own the raw memory.
#![tactic(auto)]

mod links;
mod lists;
mod queue;

pub use lists::Lists;
