//! What narrows a greatest or a least, with the set that a pass fills.
ghost use Rattle.std.specs.Prelude.{◌≡◌, IfOk};
ghost use Rattle.mn_boxes.specs.Boxes.{declared_variables};
ghost use Rattle.mn_prop.specs.Contexts.{vars_of};
ghost use Rattle.mn_prop.specs.Losses.{Unsupported};
ghost use Rattle.mn_prop.specs.Passes.{IsStep};
ghost use Rattle.mn_prop.specs.Posts.{ClosedUnderLeaf, IsReadyToRun, beside};
ghost use Rattle.mn_arith.specs.Extremes.{extreme_con, extreme_of};

use crate::extreme::Extreme;
use crate::found::Found;
use mn_model::{Instance, Term, Terms};
use mn_prop::{Ctx, Fail};
use std::alloc::{AllocError, Global};

/// A place that is the greatest of others, or the least, and a set for what they have, where it isn't too large.
#[derive(Drop)]
pub struct Extremum<'a> {
    pub(crate) of: Extreme<'a>,
    found: Option<Found>,
}

impl<'a> Extremum<'a> {
    /// What narrows `max` where `greatest`, and else `min`.
    pub(crate) fn build(
        alloc: Global,
        inst: &'a Instance,
        greatest: bool,
        terms: &'a Terms,
        x: Term,
    ) -> Result<Extremum<'a>, AllocError>
        requires { IsReadyToRun (declared_variables inst.now.decls) (beside inst.now.tuples (extreme_con greatest terms.now x)) }
        ensures { IfOk result (λ e. extreme_of e.of ≡ beside inst.now.tuples (extreme_con greatest terms.now x)) }
    {
        let of = Extreme {
            greatest,
            terms,
            x,
            inst,
        };
        let found = Found::build(alloc, &of)?;
        Ok(Extremum { of, found })
    }
}

impl Extremum<'_> {
    /// Takes values that aren't supported.
    pub(crate) fn filter(&mut self, c: &mut Ctx) -> Result<(), Fail>
        requires { IsReadyToRun (vars_of c.old) (extreme_of self.old.of) }
        ensures posted { self.new.of ≡ self.old.of }
        ensures step { IsStep (Unsupported (extreme_of self.old.of)) (ClosedUnderLeaf (vars_of c.old) (extreme_of self.old.of)) c.old c.new result }
    {
        self.of.filter(&mut self.found, c)
    }
}
