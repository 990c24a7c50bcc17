//! The limits of a model.
/// The greatest value or constant of a model; the least is its opposite.
pub const VALUE: i64 = 1_000_000_000;

/// The most values of one DISCRETE or SPARSEBOUND domain.
pub const SPAN: u64 = 65_536;

/// The most variables of an instance.
pub const VARIABLES: u32 = 65_536;

/// The most constraints of an instance; those nested in others don't count.
pub const CONSTRAINTS: u64 = 262_144;

/// The most cells of an instance's tuples, those of named lists and of literal tables together.
pub const CELLS: u64 = 16_777_216;

/// The most nested forms inside one another; leaves don't count.
pub const NESTING: u32 = 16;

/// The most places of one vector, of VARORDER and of a row of PRINT.
pub const PLACES: u32 = 65_536;

/// The most bytes of a text.
pub const TEXT_BYTES: u64 = 67_108_864;

/// The most triggers that the constraints of an instance may reserve together.
pub const TRIGGERS: u128 = 16_777_216;
