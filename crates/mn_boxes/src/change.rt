//! What a change of a set tells.
/// What a change of a variable's set moved.
#[derive(Clone, Copy, Debug, PartialEq, Eq)]
pub struct Moved {
    /// The least value is another one.
    pub lower: bool,
    /// The greatest value is another one.
    pub upper: bool,
    /// The set has one value, and had more.
    pub fixed: bool,
    /// The set is another one.
    pub any: bool,
}
