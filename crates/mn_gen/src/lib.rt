//! Models that are generated: the queens of a board, and a ring of tables.
//!
//! `make` answers exactly the instance of `specs/Generated.antt` for a kind, a seed and a size from 1 to 64, and for any
//! other size that size.
//!
//! The crate stands on `mn_model`, and on `thiserror` for its error type.
#![tactic(auto)]

mod draws;
mod fault;
mod kind;
mod making;
mod queens;
mod tables;

pub use fault::{GREATEST_SIZE, GenFault};
pub use kind::GenKind;
pub use making::make;
