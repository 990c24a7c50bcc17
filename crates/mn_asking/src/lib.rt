//! The section of a text that says how to search: the order of the variables and of their values, an objective, and what
//! is printed.
//!
//! `search` reads the items after the section's head, up to the next head, and says what they ask for in the instance of
//! a `Cursor`. It accepts exactly the items of the language, and refuses everything else at the right token and with the
//! right kind: its contract says that it answers what a reader of `specs/` answers, which is lawful for the language's
//! trees.
//!
//! The crate stands on `mn_cursor` and `mn_references`, on `mn_grammar`, whose parts the reader is made of, on `mn_lexer`,
//! and on `mn_model`.
#![tactic(auto)]

mod directions;
mod ordering;
mod printing;
mod searching;

pub use searching::{search, search_law};
