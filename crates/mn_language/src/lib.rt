//! The language of whole texts: its constraints, its sections, and the instance that each text stands for.
//!
//! The forms of constraints are a table of words and kinds of arguments, `FORMS` and `arguments_of`. The definitions of
//! `specs/` say from that table and from the sections that declare which texts there are, what each stands for, and where
//! and why every other one is refused. Laws say that no text stands for two instances, that each text has a verdict, and
//! one only, and that whatever a text stands for is lawful.
//!
//! The crate stands on `mn_decls`, `mn_asking` and `mn_references`, whose definitions it puts together, on the theory of
//! readers in `mn_grammar`, and on `mn_cursor`, `mn_lexer` and `mn_model`.
#![tactic(auto)]

mod constraint_section;
mod forms;
mod text_laws;
mod values;
mod words;

pub use constraint_section::constraints_law;
pub use forms::{Argument, FORMS, Form, Gather, Leaf, Numbers, Places, Tie};
pub use text_laws::{one_instance, one_verdict, texts_are_lawful};
pub use values::{Value, meaning};
pub use words::{arguments_of, form_of, form_text};
