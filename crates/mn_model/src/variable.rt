//! Variables and their kinds.
ghost use Rattle.std.specs.Prelude.{◌≡◌};
ghost use Rattle.mn_model.specs.Variable.{number_of};

/// A variable, by its number in order of declaration, from 0.
#[derive(Clone, Copy, Debug, PartialEq, Eq)]
pub struct VarId(u32);

impl VarId {
    /// The variable with this number.
    pub fn new(n: u32) -> VarId
        ensures { number_of result ≡ n }
    {
        VarId(n)
    }

    /// The variable's number.
    pub fn number(&self) -> u32
        ensures { result ≡ number_of self.now }
    {
        self.0
    }
}

/// How a variable was declared, which says how its set of values may shrink.
#[derive(Clone, Copy, Debug, PartialEq, Eq)]
pub enum Kind {
    /// `BOOL`: the values 0 and 1, any of which may go.
    Binary,
    /// `BOUND`: a stretch, which loses values at its ends alone.
    Bounded,
    /// `SPARSEBOUND`: listed values, which go at the ends alone.
    Sparse,
    /// `DISCRETE`: a stretch, any value of which may go.
    Discrete,
}
