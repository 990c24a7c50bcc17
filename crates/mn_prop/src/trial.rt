//! Values that a constraint is tried with.
ghost use Rattle.std.specs.Prelude.{◌≡◌};
ghost use Rattle.mn_boxes.specs.Boxes.{set_of};
ghost use Rattle.mn_boxes.specs.Places.{PlaceHas};
ghost use Rattle.mn_model.specs.Variable.{number_of};
ghost use Rattle.mn_prop.specs.Contexts.{IsNamed, box_of, first_of, vars_of};

use crate::context::Ctx;
use mn_meaning::Values;
use mn_model::{Term, VarId};

/// A value of each variable: the one that is tried of one variable, and the least one of all others.
#[derive(Drop)]
pub(crate) struct TrialAssignment<'a> {
    c: &'a Ctx,
    tried: Option<VarId>,
    value: i64,
}

impl<'a> TrialAssignment<'a> {
    ghost use Rattle.mn_prop.specs.Trials.{IsTrial, tried_value};

    /// The values with `a` at the place, and the least ones elsewhere.
    pub(crate) fn of(c: &'a Ctx, t: Term, a: i64) -> TrialAssignment<'a>
        requires named { IsNamed (vars_of c.now) t }
        requires there { PlaceHas (box_of c.now) t a }
        ensures { IsTrial (vars_of c.now) (box_of c.now) t a (tried_value (box_of result.c.now) result.tried result.value) }
    {
        c.lawful();
        match t {
            Term::Var(v) => TrialAssignment {
                c,
                tried: Some(v),
                value: a,
            },
            Term::Const(_) => TrialAssignment {
                c,
                tried: None,
                value: 0,
            },
            Term::Not(v) => TrialAssignment {
                c,
                tried: Some(v),
                value: 1 - a,
            },
        }
    }
}

impl Values for TrialAssignment<'_> {
    ghost use Rattle.mn_prop.specs.Trials.{tried_value};

    ghost values = { λ s. tried_value (box_of s.c.now) s.tried s.value };

    fn value(&self, v: VarId) -> i64 {
        match self.tried {
            Some(tried) if v.number() == tried.number() => self.value,
            _ => least_or_zero(self.c, v),
        }
    }
}

// The least value of the variable, and 0 where there is no such variable.
fn least_or_zero(c: &Ctx, v: VarId) -> i64
    ensures { result ≡ first_of (set_of (box_of c.now) (number_of v)) }
{
    c.lawful();
    if (v.number() as usize) < c.doms().vars() {
        c.lo(Term::Var(v))
    } else {
        0
    }
}
