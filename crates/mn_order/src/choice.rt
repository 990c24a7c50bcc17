//! The ways to choose a variable.

/// How a search chooses the variable to branch on, among those that have more than one value left.
#[derive(Clone, Copy, Debug, PartialEq, Eq)]
pub enum Choice {
    /// The first in the order of variables.
    Fixed,
    /// The one with the fewest values now.
    Smallest,
    /// The one with the most values now.
    Largest,
    /// The one with the least part of its declared values left.
    Ratio,
}
