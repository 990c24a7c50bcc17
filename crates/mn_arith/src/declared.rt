//! What is declared of the places of a greatest or a least.
ghost use Rattle.std.specs.Prelude.{◌≡◌, ◌≤ℤ◌, ◌⊎◌};
ghost use Rattle.mn_model.specs.Lawful.{IsLawfulTerm};
ghost use Rattle.mn_boxes.specs.Boxes.{declared_variables};
ghost use Rattle.mn_closure.specs.Ready.{declared_sets};
ghost use Rattle.mn_prop.specs.Posts.{IsReadyToRun};

use crate::extreme::Extreme;
use crate::found::Ends;
use mn_model::{Instance, Term, VarId};

impl Extreme<'_> {
    ghost use Rattle.mn_arith.specs.Extremes.{extreme_of};

    /// Ends around what is declared of the places, if there are at most so many values between them.
    pub(crate) fn declared_ends(&self, most: i64) -> Option<Ends>
        requires { IsReadyToRun (declared_variables self.now.inst.now.decls) (extreme_of self.now) }
    {
        let all = self.around_places(declared_at(self.inst, self.x));
        if all.has_at_most(most) {
            Some(all)
        } else {
            None
        }
    }

    // Ends around what is declared of those of the vector too.
    fn around_places(&self, ends: Ends) -> Ends
        requires { IsReadyToRun (declared_variables self.now.inst.now.decls) (extreme_of self.now) }
    {
        let mut all = ends;
        for k in 0..self.terms.len() {
            all = all.around(declared_at(self.inst, *self.terms.get(k)));
        }
        all
    }
}

// The least and the greatest value that is declared of a term.
fn declared_at(inst: &Instance, t: Term) -> Ends
    requires { IsLawfulTerm (declared_sets (declared_variables inst.now.decls)) t }
{
    match t {
        Term::Var(v) => declared_of(inst, v),
        Term::Const(k) => Ends { lo: k, hi: k },
        Term::Not(_) => Ends { lo: 0, hi: 1 },
    }
}

// The same of a variable.
fn declared_of(inst: &Instance, v: VarId) -> Ends
    requires { IsLawfulTerm (declared_sets (declared_variables inst.now.decls)) (Term.Var v) }
{
    let domain = inst.domain(v);
    domain.lawful();
    let lo = domain.lo();
    let hi = domain.hi();
    Ends { lo, hi }
}

impl Ends {
    // Whether there are at most so many values between the ends.
    fn has_at_most(self, most: i64) -> bool {
        self.hi - self.lo < most
    }

    // Ends around both.
    fn around(self, other: Ends) -> Ends {
        let lo = lesser(self.lo, other.lo);
        let hi = greater(self.hi, other.hi);
        Ends { lo, hi }
    }
}

fn lesser(a: i64, b: i64) -> i64
    ensures first { result ≤ℤ a }
    ensures second { result ≤ℤ b }
    ensures one { (result ≡ a) ⊎ (result ≡ b) }
{
    if a < b { a } else { b }
}

fn greater(a: i64, b: i64) -> i64
    ensures first { a ≤ℤ result }
    ensures second { b ≤ℤ result }
    ensures one { (result ≡ a) ⊎ (result ≡ b) }
{
    if a < b { b } else { a }
}
