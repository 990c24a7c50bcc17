//! The search of an instance: depth first over closed boxes, in the order of VARORDER and VALORDER, or by the sizes of the
//! sets.
//!
//! A `Search` cuts a box by the best value of the objective so far, settles it, branches where its closure leaves a choice,
//! and visits the part with the value that is tried before the part without it. The definition `Visits` of `specs/` says
//! which visits a box has, and `Search::next` makes them one after another. Without an objective each solution of the
//! instance is told once and nothing else is, and in order where the order of variables decides; with one each that is told
//! is better than all before it, and where the order decides they are those that are `listed`. With a limit it stops where so many visits are made and another is left. What is left between two
//! calls is `solutions_left` and `visits_left`. The functions beside it are laws of these definitions and do nothing.
//!
//! While it runs, only the stack of decisions and what the engine saves at a branch take memory. The crate stands on
//! `mn_engine`, `mn_order` and `mn_prop`, and for its definitions on `mn_boxes`, `mn_closure`, `mn_domains`, `mn_meaning`
//! and `mn_model`.
#![tactic(auto)]

mod branching;
mod laws;
mod path;
mod search;

pub use laws::{
    left_parts_are_uncut, paths_are_ordered, solutions_are_visited, solutions_are_visited_once,
    solutions_improve, visited_boxes_hold_assignments, visits_are_few, visits_are_there,
    visits_are_unique, visits_have_boxes,
};
pub use search::{Event, Search};
pub use std::alloc::AllocError as NoMemory;
