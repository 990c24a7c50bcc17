//! The kinds of generated models.

/// A kind of generated models.
#[derive(Clone, Copy, Debug, PartialEq, Eq)]
pub enum GenKind {
    /// As many queens as a board has rows, none of which attacks another. The seed isn't used.
    Queens,
    /// Variables on a ring, each three one after another in a list of tuples that are drawn by the seed. It has a solution.
    Tables,
}
