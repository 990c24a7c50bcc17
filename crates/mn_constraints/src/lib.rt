//! Sections of constraints.
//!
//! `constraints` reads the entries of a section of constraints and adds each to the instance of a `Cursor`. It accepts
//! exactly what the language of `mn_language` has, and refuses everything else at the right token and with the right
//! kind: its contract says that it answers what the section's reader there answers.
//!
//! The crate stands on `mn_language`, whose table of forms it reads by, on `mn_references`, which reads terms and
//! vectors, on `mn_cursor`, `mn_grammar`, `mn_lexer` and `mn_model`.
#![tactic(auto)]

mod arguments;
mod leaves;
mod nested;
mod numbers;
mod section;
mod tables;

pub use section::constraints;
