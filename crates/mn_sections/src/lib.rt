//! The sections of a text that stands for an instance.
//!
//! `sections_of` has an instance as the four sections of a text: a declaration, an alias, a tuple list, an item on the
//! search and a constraint for each of the instance's own, and each variable by the name and the indices that it is
//! declared with. The law says that these sections keep every condition of the language and stand for that instance.
//!
//! The crate stands on `mn_language` and the crates below it for the language.
#![tactic(auto)]

mod law;

pub use law::instances_are_said;
