//! The canonical text of an instance: one text of the input language for each instance, always the same.
//!
//! `canonical_text` has a variable by the name and the indices of its declaration, whatever alias a text had for it, and
//! a sparse domain by its values in ascending order. The law says that this text is read as the instance.
//!
//! The crate stands on `mn_sections` for the sections of that text, on `mn_pieces` for its tokens, and on `mn_language` for
//! what it means to read.
#![tactic(auto)]

mod law;

pub use law::canonical_texts_are_read;
