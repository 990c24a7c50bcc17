//! References to variables, and what is made of them: terms, vectors and rows.
//!
//! A `Scan` is a place in the text of a cursor, from which what is read may borrow from the instance. `reference_at`
//! reads a name with its indices and answers the variables that it names; `entry` reads an entry of a list, and `term`,
//! `list`, `vector` and `row` answer the terms of what they read. Each accepts exactly what the language has, and refuses
//! everything else at the right token and with the right kind: its contract says that it answers what a reader of
//! `specs/` answers, which is lawful for the language's trees.
//!
//! The crate stands on `mn_cursor`, on `mn_grammar`, whose parts the readers are made of, on `mn_lexer` and on
//! `mn_model`.
#![tactic(auto)]

mod aims;
mod entries;
mod indices;
mod lists;
mod lookup;
mod reading;
mod references;
mod rows;
mod scan;
mod want;

pub use aims::Aimed;
pub use entries::{Placed, Placing, entry, lesser};
pub use indices::Index;
pub use lists::{Listed, list, term, vector};
pub use lookup::{Lookup, Source};
pub use reading::{reference, reference_law};
pub use references::{Reference, kind_of, reference_at};
pub use rows::{Rows, row};
pub use scan::{Scan, Start};
pub use want::{Bounds, Unfit, Want};
