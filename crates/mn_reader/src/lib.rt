//! Whole texts.
//!
//! `read` answers the instance that a text of the language stands for, exactly where there is one, and else refuses the
//! text at the definition's place and with its kind. It makes the tokens, reads the first two of them, and then section
//! after section in a `Cursor`.
//!
//! The crate stands on `mn_language`, which defines the texts and what they stand for, on `mn_decls`, `mn_asking` and
//! `mn_constraints`, which read the sections, on `mn_cursor`, `mn_grammar` and `mn_lexer`, and on `mn_model`.
#![tactic(auto)]

mod text;

pub use text::read;

#[cfg(test)]
mod text_tests;
