//! Propagators of the constraints of two vectors: `lexleq`, `lexless` and `watchvecneq`.
//!
//! A `LexCon` narrows the places of one such constraint at level Arc, with the promises of a `Runner`. A choice takes one value
//! for each place, so a variable that stands at two places counts as two. A pass takes time linear in the places at most, and
//! stops at the first pair of places that decides.
//!
//! The crate stands on `mn_prop`, which says what a propagator owes, and on `mn_closure`, `mn_boxes`, `mn_domains`,
//! `mn_meaning` and `mn_model`.
#![tactic(auto)]

mod apart;
mod lex;
mod lexical;
mod pair;

pub use apart::Apart;
pub use lex::LexCon;
pub use lexical::Lexical;
