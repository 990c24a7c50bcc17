//! The printed texts: the block of a solution, the summary after all blocks, and the lines that tell of a fault.
//!
//! Each call answers exactly the text of its definition in `specs/`, or that memory ran out. Lines that never change are
//! constants. Numbers are printed by `itoa`.
//!
//! The crate stands on `mn_model` for what an instance asks to be printed, on `mn_meaning` for the value of a term, and on
//! `itoa`.
#![tactic(auto)]

mod blocks;
mod lines;

pub use blocks::{block, write_block};
pub use lines::{
    MEMORY_LINE, NO_MODEL_LINE, Outcome, READ_LINE, number_line, place_of, refused_line, summary,
    usage_line,
};
pub use std::alloc::AllocError as NoMemory;
