//! Two places that differ: `diseq`.
ghost use Rattle.std.specs.Prelude.{◌≢◌, OnOk};
ghost use Rattle.mn_prop.specs.Contexts.{IsNamed, box_of, vars_of};
ghost use Rattle.mn_prop.specs.Footings.{no_footing};
ghost use Rattle.mn_prop.specs.Losses.{Unsupported};
ghost use Rattle.mn_prop.specs.Passes.{IsStep};
ghost use Rattle.mn_prop.specs.Posts.{ClosedUnderLeaf, IsReadyToRun};
ghost use Rattle.mn_basic.specs.Binaries.{EachAsked};
ghost use Rattle.mn_basic.specs.Losses.{ThatAt};

use mn_model::{Instance, Term};
use mn_prop::{Ctx, Fail, Scoped};

/// The first place has another value than the second.
#[derive(Drop)]
pub struct Differ<'a> {
    pub(crate) x: Term,
    pub(crate) y: Term,
    pub(crate) inst: &'a Instance,
}

impl Differ<'_> {
    ghost use Rattle.mn_basic.specs.Binaries.{differ_of};

    /// Takes the value of a place that has one alone out of the other place, or fails.
    pub(crate) fn filter(&self, c: &mut Ctx) -> Result<(), Fail>
        requires { IsReadyToRun (vars_of c.old) (differ_of self.now) }
        ensures step { IsStep (Unsupported (differ_of self.now)) (ClosedUnderLeaf (vars_of c.old) (differ_of self.now)) c.old c.new result }
        ensures settled { OnOk result (ClosedUnderLeaf (vars_of c.old) (differ_of self.now) (box_of c.new)) }
    {
        c.lawful();
        if c.is_single(self.x) {
            let a = c.lo(self.x);
            return drop_value(c, self.y, a);
        }
        if c.is_single(self.y) {
            let a = c.lo(self.y);
            return drop_value(c, self.x, a);
        }
        Ok(())
    }
}

/// Takes `a` out of the place, if it may go.
pub(crate) fn drop_value(c: &mut Ctx, t: Term, a: i64) -> Result<(), Fail>
    requires { IsNamed (vars_of c.old) t }
    ensures step { IsStep (ThatAt t a) (EachAsked (vars_of c.old) t (λ b. b ≢ a)) c.old c.new result }
    ensures settled { OnOk result (EachAsked (vars_of c.old) t (λ b. b ≢ a) (box_of c.new)) }
{
    c.lawful();
    if !c.may_remove(t, a) {
        return Ok(());
    }
    c.remove(t, a)
}

impl Scoped for Differ<'_> {
    ghost use Rattle.mn_basic.specs.Binaries.{differ_of};

    ghost posted = { differ_of };

    ghost footing = { λ s. no_footing };

    fn places(&self) -> usize {
        2
    }

    fn term(&self, i: usize) -> Term {
        if i == 0 { self.x } else { self.y }
    }
}
