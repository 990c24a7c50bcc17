//! How far a text is read.
//!
//! A `Cursor` holds the tokens of a text, the place in them, the instance so far, and which items on how to search the
//! text has had. Its calls look at the token at the place, read it where no condition on it is broken, and else tell what
//! stops the reading there; their contracts say which readers of single tokens they are. What stopped a text's reading
//! becomes a `Refusal` here, with its byte.
//!
//! The crate stands on `mn_grammar`, whose readers of single tokens it meets, on `mn_lexer`, and on `mn_model`, whose
//! `Instance` a cursor fills.
#![tactic(auto)]

mod asked;
mod cursor;
mod heads;
mod looks;
mod names;
mod refusing;

pub use asked::Asked;
pub use cursor::Cursor;
pub use heads::{Head, head_of};
pub use looks::{First, Seen, seen_of};
pub use names::{str_of, text_of};
