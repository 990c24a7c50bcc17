//! Texts that are written piece by piece, and their tokens.
//!
//! Where each piece has the form of a token and what is behind it doesn't go on with it, the pieces are the tokens of the
//! text. So a text that is written with a mark or a blank between any two words or numbers is read again as it was meant.
//!
//! A printed number is one of these tokens, with its value.
//!
//! The crate stands on `mn_lexer` for the tokens.
#![tactic(auto)]

mod law;

pub use law::{numbers_are_read, pieces_are_tokens, spaced_pieces_are_tokens};
