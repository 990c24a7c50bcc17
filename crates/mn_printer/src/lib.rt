//! The canonical text of an instance: one text of the input language for each instance, always the same.
//!
//! `print` answers exactly the text of `canonical_text`, or that it is longer than a text may be, with its length, or
//! that memory ran out. A variable is written by the name and the indices of its declaration, whatever alias a text had
//! for it, and a sparse domain by its values in ascending order. Bytes past the limit are counted, but not kept.
//!
//! The crate stands on `mn_canonical`, `mn_language` and `mn_sections` for what the text is and that it is read again, on
//! `mn_model` for the instance, on `itoa` for numbers, and on `thiserror`.
#![tactic(auto)]

mod arguments;
mod constraints;
mod declarations;
mod lists;
mod names;
mod page;
mod search;
mod sections;
mod tables;

pub use sections::{PrintFault, print};
