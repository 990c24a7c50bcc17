//! Assignments, and the value of a term.
ghost use Rattle.std.specs.Prelude.{◌≡◌, ℕ, ℤ};
ghost use Rattle.mn_model.specs.Domain.{IsValue};
ghost use Rattle.mn_model.specs.Variable.{number_of};
ghost use Rattle.mn_meaning.specs.Meaning.{at, value_of};

use mn_model::{Term, VarId};

/// What tells the value of each variable.
pub trait Values {
    ghost values: { Self → ℕ → ℤ };

    /// The value of the variable.
    fn value(&self, v: VarId) -> i64
        ensures { result ≡ values self.now (number_of v) };
}

/// An assignment: the value of each variable, by its number, and 0 of all others.
#[derive(Drop)]
pub struct Assigned<'a> {
    values: &'a [i64],
}

impl<'a> Assigned<'a> {
    /// The assignment of these values.
    pub fn new(values: &'a [i64]) -> Assigned<'a>
        ensures { result.values.now ≡ values.now }
    {
        Assigned { values }
    }
}

impl Values for Assigned<'_> {
    ghost values = { λ s. at s.values.now };

    fn value(&self, v: VarId) -> i64 {
        match self.values.get(v.number() as usize) {
            Some(a) => *a,
            None => 0,
        }
    }
}

/// The value of a term.
pub fn value_at<V: Values>(t: Term, s: &V) -> i64
    requires valued { (v : ℕ) → IsValue (V.values s.now v) }
    ensures { result ≡ value_of (V.values s.now) t }
{
    match t {
        Term::Var(v) => s.value(v),
        Term::Const(k) => k,
        Term::Not(v) => 1 - s.value(v),
    }
}
