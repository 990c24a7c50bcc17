//! What a model declares: matrices of variables, other names for them, and lists of tuples.
use super::{Dims, Domain, Kind, Shared, Text, VarId, VarIds};

/// A declaration of a variable or of a matrix of variables.
#[derive(Debug, Drop)]
pub struct Decl {
    /// Its name, which no other declaration and no alias has.
    pub name: Text,
    /// The dimensions, the outermost first. None at all for a single variable.
    pub dims: Dims,
    /// How the sets of values of its variables may shrink.
    pub kind: Kind,
    /// The values of each of its variables.
    pub domain: Domain,
    /// Its first variable. The others follow, the last index running fastest.
    pub first: VarId,
}

/// A further name of a variable, or of a matrix of variables that are declared elsewhere.
#[derive(Debug, Drop)]
pub struct Alias {
    /// Its name, which no declaration and no other alias has.
    pub name: Text,
    /// The dimensions, the outermost first. None at all for a single variable.
    pub dims: Dims,
    /// The variables, the last index running fastest.
    pub vars: VarIds,
}

/// A tuple list.
#[derive(Debug, Drop)]
pub struct Tuples {
    /// Its name, which no other tuple list has. A variable may have it too.
    pub name: Text,
    /// How many numbers each tuple has: at least 1.
    pub arity: u64,
    /// The numbers of one tuple after another.
    pub cells: Shared,
}
