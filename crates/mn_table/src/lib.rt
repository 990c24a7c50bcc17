//! The propagators of `table` and `negativetable`.
//!
//! A `Table` narrows the places of a vector whose values are one of the tuples of a table, or none of them, at level Arc, with the
//! promises of a `Runner`. A choice takes one value for each place, so a variable that stands at two places counts as two.
//!
//! Where the tuples are allowed, a pass goes over them once and marks those whose values are all at their places. Then it keeps at
//! each place what the marked tuples have there, gathered in a set. The sets are made with the constraint. Where the numbers of
//! the tuples span too much for them, values are tried one by one.
//!
//! Where they are forbidden, a value goes with which as many different tuples have all their values at their places as there are
//! choices at the other places. If all tuples are fewer than that, which the sizes of the places tell, they aren't looked at.
//!
//! The crate stands on `mn_prop`, which says what a propagator owes, on `mn_closure`, `mn_boxes`, `mn_domains`, `mn_meaning` and
//! `mn_model`, and on `indexmap` for a set of tuples.
#![tactic(auto)]

mod forbidden;
mod listed;
mod marked;
mod once;
mod room;
mod rows;
mod sizes;
mod table;

pub use table::Table;
