//! What is wanted of a reference and of a vector.

/// What is wanted of a reference.
#[derive(Clone, Copy, Debug, PartialEq, Eq)]
pub struct Want {
    /// How many variables it names at least, and at most.
    pub least: u32,
    pub most: u32,
    /// How many places the limit of its vector or row still leaves.
    pub room: u32,
    /// Whether all that it names have the values 0 and 1.
    pub bits: bool,
    /// Whether one variable named in full may stand.
    pub single: bool,
    /// Whether slices and whole matrices may stand.
    pub slices: bool,
    /// Whether `,` may follow it, and `)`, and `]`.
    pub comma: bool,
    pub round: bool,
    pub square: bool,
}

/// What the end of a reference can break.
#[derive(Clone, Copy, Debug, PartialEq, Eq)]
pub enum Unfit {
    /// It isn't what is wanted.
    Form,
    /// The limit of a vector is passed.
    Length,
}

/// How many places a vector has, and of which kind.
#[derive(Clone, Copy, Debug, PartialEq, Eq)]
pub struct Bounds {
    pub least: u32,
    pub most: u32,
    /// Whether all its terms are 0/1 terms.
    pub bits: bool,
}
