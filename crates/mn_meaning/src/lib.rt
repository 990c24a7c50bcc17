//! What constraints mean, and which assignments solve an instance.
//!
//! `Meets` of `specs/` says of each form of constraint what it means of the values at its places; `Holds` is that
//! meaning under an assignment; `all_assignments`, `solutions` and `listed` are the lists of assignments that a solver
//! owes, in the order of the search. `holds`, `holds_over` and `checks` decide these meanings. They take no memory.
//!
//! The crate stands on `mn_model`.
#![tactic(auto)]

mod counts;
mod laws;
mod meaning;
mod orders;
mod sets;
mod sums;
mod values;

pub use laws::{
    assignments_are_all, distinct_values_are_counted, lawful_problems_are_fit, negations_are_meant,
    negations_hold_where_not, quotients_are_rounded_down, records_are_owed, search_order_is_whole,
    solutions_are_those_that_hold, without_an_order,
};
pub use meaning::{checks, holds, holds_beside, holds_over};
pub use sets::{in_intervals, is_between, is_in};
pub use values::{Assigned, Values, value_at};
