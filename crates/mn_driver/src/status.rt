//! How a run ended, and what it did.
ghost use Rattle.std.specs.Prelude.{◌≡◌};
ghost use Rattle.mn_driver.specs.Codes.{code_of};

use mn_model::Refusal;
use mn_options::Usage;

/// What a run did, whatever its end. Counts stand still at their greatest value.
#[derive(Clone, Copy, Debug, PartialEq, Eq)]
pub struct Counts {
    /// The solutions whose block was written whole, or where solutions aren't printed those that were found.
    pub solutions: u64,
    /// The visits of the search.
    pub nodes: u64,
}

impl Counts {
    /// Nothing was done.
    pub const NONE: Counts = Counts {
        solutions: 0,
        nodes: 0,
    };
}

/// How a run ended, and what it did.
#[derive(Clone, Copy, Debug, PartialEq, Eq)]
pub struct Ended {
    pub status: Status,
    pub counts: Counts,
}

/// How a run ended.
#[derive(Clone, Copy, Debug, PartialEq, Eq)]
pub enum Status {
    /// All that is to be written was written, and no visit is left.
    Complete,
    /// As many solutions were found as were asked for, and a visit is left.
    AtSolutionLimit,
    /// As many visits were made as were asked for at most, and another is left.
    AtNodeLimit,
    /// The model's text was written, as it was asked for in place of its solutions.
    Printed,
    /// The text stands for no instance.
    Refused(Refusal),
    /// The words break a rule.
    Usage(Usage),
    /// The model can't be read.
    ReadFault,
    /// The output failed.
    WriteFault,
    /// The model's text, which was asked for, has too many bytes: so many.
    DumpTooLong(u64),
    /// Memory ran out.
    NoMemory,
}

impl Status {
    /// The number that the program ends with.
    pub fn code(&self) -> u8
        ensures { result ≡ code_of self.now }
    {
        match self {
            Status::Complete | Status::AtSolutionLimit | Status::AtNodeLimit | Status::Printed => 0,
            Status::Refused(_) => 1,
            Status::Usage(_) => 2,
            Status::ReadFault => 3,
            Status::WriteFault => 4,
            Status::DumpTooLong(_) => 5,
            Status::NoMemory => 6,
        }
    }
}
