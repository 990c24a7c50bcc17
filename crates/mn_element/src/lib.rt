//! Propagators of the constraints of an index: `element`, `watchelement`, `element_one` and `watchelement_one`.
//!
//! An `Element` narrows the places of one such constraint at level Arc, with the promises of a `Runner`. A choice takes one value
//! for each place, so a variable that stands at two places counts as two. A pass looks at the entries that the index may have
//! alone: an entry loses values only where the index is that entry's.
//!
//! A pass puts the values of the result into a set, then those indices whose entries meet it and the values of those entries,
//! and keeps these at the index and at the result: it looks at each index once. The sets are made with the constraint. Where
//! what is declared spans too much for them, values are tried one by one.
//!
//! The crate stands on `mn_prop`, which says what a propagator owes, and on `mn_closure`, `mn_boxes`, `mn_domains`,
//! `mn_meaning` and `mn_model`.
#![tactic(auto)]

mod declared;
mod element;
mod gathered;
mod indexed;
mod picking;
mod stretch;

pub use element::Element;
pub use indexed::Form;
