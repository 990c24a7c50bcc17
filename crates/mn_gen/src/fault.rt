//! Why no model is generated.
use thiserror::Error;

/// The greatest size of a generated model. The least is 1.
pub const GREATEST_SIZE: u64 = 64;

/// Why no model is generated.
#[derive(Clone, Copy, Debug, PartialEq, Eq, Error)]
pub enum GenFault {
    /// There is no model of this size.
    #[error("no model of size {0}")]
    Size(u64),
    /// Memory ran out.
    #[error("no memory")]
    NoMemory,
}
