//! The model of a constraint satisfaction problem: what is declared and what is asked.
//!
//! An `Instance` is lawful by its type: its names are distinct, its domains are not empty, its constraints
//! speak of declared variables and have the form that the language wants, and all limits are kept. Contracts see
//! it as a `Problem`, that is, as the lists of what it holds. `Con` has a variant for each form of constraint, and
//! `reverse` gives the constraint that holds exactly where another doesn't.
//!
//! The crate stands on std, on `indexmap`, which keeps the names, and on `sqlite_items`, whose `Boxed` lets
//! definitions compute constraints.
#![tactic(auto)]

mod constraint;
mod copying;
mod counting;
mod declaration;
mod dims;
mod domain;
mod instance;
mod limits;
mod name;
mod negation;
mod placing;
mod refusal;
mod search;
mod sequence;
mod shared;
mod variable;

pub use constraint::{Con, Cons, Tab, Term};
pub use declaration::{Alias, Decl, Tuples};
pub use dims::size_of;
pub use domain::Domain;
pub use instance::Instance;
pub use limits::{
    CELLS, CONSTRAINTS, NESTING, PLACES, SPAN, TEXT_BYTES, TRIGGERS, VALUE, VARIABLES,
};
pub use name::is_name;
pub use negation::reverse;
pub use refusal::{Refusal, Which};
pub use search::{Goal, Order, Print, Step};
pub use sequence::{Dims, Flags, Ints, Path, Sequence, TermRows, Terms, Text, VarIds};
pub use shared::Shared;
pub use std::alloc::AllocError as NoMemory;
pub use variable::{Kind, VarId};
