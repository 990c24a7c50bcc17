//! Places that all differ: `alldiff`.
ghost use Rattle.std.specs.Prelude.{◌<◌, length};
ghost use Rattle.mn_prop.specs.Contexts.{vars_of};
ghost use Rattle.mn_prop.specs.Footings.{no_footing};
ghost use Rattle.mn_prop.specs.Losses.{Unsupported};
ghost use Rattle.mn_prop.specs.Passes.{IsStep};
ghost use Rattle.mn_prop.specs.Posts.{ClosedUnderLeaf, IsReadyToRun};
ghost use Rattle.mn_count.specs.Singles.{IsSpread};

use crate::changes::drop_value;
use mn_model::{Instance, Term, Terms};
use mn_prop::{Ctx, Fail, Scoped};

/// No two places have the same value.
#[derive(Drop)]
pub struct Alldiff<'a> {
    pub(crate) v: &'a Terms,
    pub(crate) inst: &'a Instance,
}

impl Alldiff<'_> {
    ghost use Rattle.mn_count.specs.Counts.{alldiff_of};

    /// Takes the value of each place that has one alone out of all other places, or fails.
    pub(crate) fn filter(&self, c: &mut Ctx) -> Result<(), Fail>
        requires { IsReadyToRun (vars_of c.old) (alldiff_of self.now) }
        ensures { IsStep (Unsupported (alldiff_of self.now)) (ClosedUnderLeaf (vars_of c.old) (alldiff_of self.now)) c.old c.new result }
    {
        c.lawful();
        for i in 0..self.v.len() {
            self.spread(c, i)?;
        }
        Ok(())
    }

    // Takes the value of the place out of all others, if it has one alone.
    fn spread(&self, c: &mut Ctx, i: usize) -> Result<(), Fail>
        requires ready { IsReadyToRun (vars_of c.old) (alldiff_of self.now) }
        requires within { i < length self.now.v.now }
        ensures { IsStep (Unsupported (alldiff_of self.now)) (IsSpread (vars_of c.old) self.now.v.now i) c.old c.new result }
    {
        let t = *self.v.get(i);
        if !c.is_single(t) {
            return Ok(());
        }
        let a = c.lo(t);
        for j in 0..self.v.len() {
            if j == i {
                continue;
            }
            drop_value(c, *self.v.get(j), a)?;
        }
        Ok(())
    }
}

impl Scoped for Alldiff<'_> {
    ghost use Rattle.mn_count.specs.Counts.{alldiff_of};

    ghost posted = { alldiff_of };

    ghost footing = { λ _. no_footing };

    fn places(&self) -> usize {
        self.v.as_slice().len()
    }

    fn term(&self, i: usize) -> Term {
        *self.v.get(i)
    }
}
