//! Sets, boxes and events: what a solver speaks of while it narrows the values of the variables.
//!
//! A set is the ascending list of the values that a variable has left, a box is one set for each variable, and an event
//! is a way in which a set may have changed. The definitions are in `specs/`, and the crates above cite them: `IsSetOf`,
//! `IsBox`, `Inside`, `PlaceHas`, `Fires` and `IsMoved`. Most functions are laws of these definitions and do nothing.
//! `is_bounded` tells the two sorts of variables apart, `bits` has rows of bits in words, and `ValueSet` is a set of values by
//! words, the scratch in which propagators mark values.
//!
//! The crate stands on `mn_model`, whose declarations say which values and which kind a variable has.
#![tactic(auto)]

pub mod bits;
mod change;
mod kind;
mod laws;
mod value_set;

pub use change::Moved;
pub use kind::is_bounded;
pub use laws::{
    as_many_are_the_same, declared_sets_are_a_box, events_are_changes, inside_passes_on,
    quiet_events_tell, two_changes_fire_as_one,
};
pub use value_set::ValueSet;
