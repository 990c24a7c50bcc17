//! What propagation leaves: which values are supported, when a box is closed under a constraint, and the greatest closed box.
//!
//! A value of a place is supported in a box as the level of the constraint says; a box is closed where all that has to be
//! supported is; the closure of a box is the greatest closed one inside it. The definitions are in `specs/`, and the crates
//! above cite them: `level`, `Supported`, `Possible`, `Closed`, `IsClosure` and `NoClosure`, and what a constraint keeps that is
//! propagated, `IsReady`. The functions are laws of these definitions and do nothing: joins of closed boxes are closed, each box
//! has one closure or none, and no solution is outside it.
//!
//! The crate stands on `mn_boxes`, `mn_meaning` and `mn_model`.
#![tactic(auto)]

mod laws;

pub use laws::{
    closure_is_unique, closures_are_computed, joins_are_closed, lawful_constraints_are_ready,
    lawful_constraints_suit, leaves_are_denied, leaves_are_whole, literals_show,
    negations_are_denied, one_is_the_only, parts_are_ready, places_tell, propagation_is_decided,
    singles_tell, solutions_are_in_closures, wider_boxes_keep,
};
