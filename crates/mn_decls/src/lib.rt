//! The sections of a text that declare: variables with their further names, and tuple lists.
//!
//! Each section's function reads the entries after the section's head, up to the next head, and adds what they declare
//! to the instance of a `Cursor`. It accepts exactly the entries of the language, and refuses everything else at the right
//! token and with the right kind: its contract says that it answers what a reader of `specs/` answers, which is lawful for
//! the language's trees.
//!
//! The crate stands on `mn_cursor` and `mn_references`, on `mn_grammar`, whose parts the readers are made of, on
//! `mn_lexer`, and on `mn_model`.
#![tactic(auto)]

mod alias_dims;
mod aliases;
mod brackets;
mod declaring;
mod dims;
mod naming;
mod parts;
mod shape;
mod tuplelists;
mod values;

pub use declaring::{variables, variables_law};
pub use mn_cursor::{Cursor, First, Head, Seen, head_of};
pub use mn_references::{Bounds, Unfit, Want, reference, reference_law};
pub use tuplelists::{tuplelist, tuplelist_law};
