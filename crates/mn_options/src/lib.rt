//! The words of the command line, and what they ask for.
//!
//! `parse` gives the options that lawful words ask for, and of words that break a rule the rule that is broken first.
//! The options and their words are one table, `TABLE`, the orders another, `ORDERS`, and the kinds of generated models a third,
//! `KINDS`. The definitions `words_of`,
//! `first_broken` and `AreOptions` of `specs/` say what each word is in its place, as an option's value is a word by its
//! place, which rule the words break first, and what lawful words say. Two laws say that the tables are unambiguous, and
//! which words break no rule.
//!
//! The crate stands on `mn_model` for the text that a name is, and on `mn_order` for the ways to choose a variable, and on `mn_gen`
//! for the kinds of generated models.
#![tactic(auto)]

mod laws;
mod limits;
mod options;
mod rules;
mod table;
mod told;
mod usage;
mod words;

pub use laws::{lawful_words_break_no_rule, tables_are_unambiguous};
pub use mn_gen::GenKind;
pub use mn_model::Text;
pub use mn_order::Choice;
pub use options::{Options, parse};
pub use table::{CommandOption, KINDS, ORDERS, TABLE};
pub use told::Wanted;
pub use usage::Usage;
