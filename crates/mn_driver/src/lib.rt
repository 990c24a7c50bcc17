//! The top call of the program.
//!
//! `run` takes the words of the command line, the files and the output, and answers how it ended. Its clauses are the
//! headline: of a named file that holds a model, or of a generated one, exactly the report of its solutions is written, each
//! solution once, in the order of the model, and every other end has its cause.
//!
//! The crate stands on `mn_options` for what the words ask for, on `mn_gen` for generated models, on `mn_reader` for the model
//! of a text and on `mn_language` for which texts there are, on `mn_search`, `mn_engine` and `mn_leaf` for a model's solutions,
//! on `mn_model` and `mn_meaning` for what they are, on `mn_report` for the printed texts, on `mn_printer` and `mn_canonical`
//! for the canonical one, and on `mn_outside` for files and output. Of `mn_boxes`, `mn_closure`, `mn_domains`, `mn_order` and
//! `mn_prop` it has the definitions that its proofs cite.
#![tactic(auto)]

mod load;
mod plan;
mod program;
mod request;
mod solve;
mod status;

pub use mn_options::Usage;
pub use mn_report::MEMORY_LINE;
pub use program::run;
pub use status::{Counts, Ended, Status};
