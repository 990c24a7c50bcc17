//! The context in which propagators work, and what a propagator promises.
//!
//! `Ctx` has the sets of all variables, seen by the places of constraints: a variable, a constant, or one less a 0/1
//! variable. A `Runner` narrows the places of one constraint. A pass is a step between two contexts: it takes values alone,
//! each of which isn't supported when it goes, keeps each box that is closed under the constraint, fails only where there is
//! none, and where it takes nothing the sets are closed under it. How that is said is in `specs/Passes.antt` and
//! `specs/Losses.antt`. Kinds of constraints make their steps by the lemmas of `proofs/Stepping.antt`, `proofs/Going.antt`
//! and `proofs/Narrowing.antt`.
//!
//! The crate stands on `mn_boxes`, `mn_closure`, `mn_domains`, `mn_meaning` and `mn_model`.
#![tactic(auto)]

mod context;
mod forward;
mod revising;
mod runner;
mod support;
mod trial;

pub use context::{Ctx, Fail};
pub use forward::ForwardCheck;
pub use revising::{revise, revise_all};
pub use runner::{Make, Runner, Scoped};
pub use std::alloc::AllocError as NoMemory;
pub use support::SupportTest;
