//! Which items on how to search a text has had.

/// Which items on how to search a text has had; each may stand once.
#[derive(Clone, Copy, Debug, PartialEq, Eq)]
pub struct Asked {
    pub order: bool,
    pub values: bool,
    pub goal: bool,
    pub print: bool,
}
