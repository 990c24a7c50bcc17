//! The outside of the program: files and a sink, as the traits `Files` and `Sink`.
//!
//! Each trait says in its clauses what a call does to the content, where the content is told, and that a call fails
//! only where a count of faults rose. Generic code can't raise such a count, so a caller that is generic over the
//! traits can't make a fault up. `MemFiles` and `MemSink` hold their content in memory and fail at stated calls, for
//! tests; `DiskFiles` and `StdSink` are the file system and standard output, of which no content is told.
//! `fetch_all`, `put_all` and `append_all` repeat a call until the whole is done.
//!
//! It stands on std, and on `thiserror` for the texts of `FetchFault`.
#![tactic(auto)]

mod calls;
mod helpers;
mod mem_files;
mod mem_sink;
mod named;
mod outside;
mod real;

pub use helpers::{FetchFault, append_all, fetch_all, line_count, put_all};
pub use mem_files::MemFiles;
pub use mem_sink::MemSink;
pub use outside::{Failed, Files, Sink};
pub use real::{DiskFiles, StdSink};

#[cfg(test)]
mod tests;
