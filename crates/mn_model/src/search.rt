//! How a model is searched: orders, objective and what is printed.
use super::{Flags, TermRows, VarId, VarIds};

/// What VARORDER and VALORDER say: which variables come first, and in which direction their values are tried.
#[derive(Debug, Drop)]
pub struct Order {
    /// As they are written, repeats too.
    pub vars: VarIds,
    /// By place in `vars`: whether the greatest value is tried first.
    pub down: Flags,
}

/// The variable that is to be made large or small.
#[derive(Clone, Copy, Debug, PartialEq, Eq)]
pub struct Goal {
    /// That variable.
    pub var: VarId,
    /// Whether it is to be large; else it is to be small.
    pub maximise: bool,
}

/// What is printed of a solution.
#[derive(Debug, Drop)]
pub enum Print {
    /// One row of all variables, in order of declaration.
    All,
    /// No row at all.
    Nothing,
    /// These rows, one line each, in order.
    Rows(TermRows),
}

/// A decision of a search: a value that a variable is given, or that it is not given once all with it has been tried.
#[derive(Clone, Copy, Debug, PartialEq, Eq)]
pub struct Step {
    /// The variable that is decided on.
    pub var: VarId,
    /// One of its values.
    pub value: i64,
    /// Whether the value is given; else it is taken away.
    pub left: bool,
}
