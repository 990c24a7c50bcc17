//! One place that has certain numbers: `w-literal`, `w-notliteral`, `w-inset`, `w-notinset`, `w-inrange`, `w-notinrange` and
//! `w-inintervalset`.
ghost use Rattle.std.specs.Prelude.{◌≡◌, OnOk, true};
ghost use Rattle.mn_prop.specs.Contexts.{box_of, vars_of};
ghost use Rattle.mn_prop.specs.Footings.{no_footing};
ghost use Rattle.mn_prop.specs.Losses.{Unsupported};
ghost use Rattle.mn_prop.specs.Passes.{IsStep, Narrows};
ghost use Rattle.mn_prop.specs.Posts.{ClosedUnderLeaf, IsReadyToRun};

use crate::differ::drop_value;
use crate::interval::Interval;
use crate::numbers::Numbers;
use mn_model::{Instance, Term};
use mn_prop::{Ctx, Fail, Scoped, SupportTest, revise_all};

/// A place that has certain numbers.
#[derive(Drop)]
pub struct Unary<'a> {
    pub(crate) numbers: Numbers<'a>,
    pub(crate) x: Term,
    pub(crate) inst: &'a Instance,
}

impl Unary<'_> {
    ghost use Rattle.mn_basic.specs.Unaries.{in_one_change, unary_of};

    /// Takes values that aren't supported, or fails. Values at the ends go in one change.
    pub(crate) fn filter(&self, c: &mut Ctx) -> Result<(), Fail>
        requires { IsReadyToRun (vars_of c.old) (unary_of self.now) }
        ensures step { IsStep (Unsupported (unary_of self.now)) (ClosedUnderLeaf (vars_of c.old) (unary_of self.now)) c.old c.new result }
        ensures settled { OnOk result (in_one_change self.now.numbers ≡ true → ClosedUnderLeaf (vars_of c.old) (unary_of self.now) (box_of c.new)) }
    {
        match &self.numbers {
            Numbers::Is(k) => Interval::of(*k, *k).keep(c, self.x),
            Numbers::IsNot(k) => drop_value(c, self.x, *k),
            Numbers::Between(lo, hi) => Interval::of(*lo, *hi).keep(c, self.x),
            Numbers::Among(_) => self.revise_values(c),
            Numbers::NotAmong(_) => self.revise_values(c),
            Numbers::NotBetween(_, _) => self.revise_values(c),
            Numbers::Within(_) => self.revise_values(c),
        }
    }

    // Cuts the place at its ends, and then tests each value that it has left.
    fn revise_values(&self, c: &mut Ctx) -> Result<(), Fail>
        requires { IsReadyToRun (vars_of c.old) (unary_of self.now) }
        ensures { IsStep (Unsupported (unary_of self.now)) (ClosedUnderLeaf (vars_of c.old) (unary_of self.now)) c.old c.new result }
    {
        self.cut_ends(c)?;
        revise_all(self, c)
    }

    // Cuts the place to what reaches from the least to the greatest value that it may have.
    fn cut_ends(&self, c: &mut Ctx) -> Result<(), Fail>
        requires { IsReadyToRun (vars_of c.old) (unary_of self.now) }
        ensures { Narrows (Unsupported (unary_of self.now)) (ClosedUnderLeaf (vars_of c.old) (unary_of self.now)) c.old c.new result }
    {
        let own = Interval::of(c.lo(self.x), c.hi(self.x));
        self.numbers.reach(own).keep(c, self.x)
    }
}

impl Scoped for Unary<'_> {
    ghost use Rattle.mn_basic.specs.Unaries.{unary_of};

    ghost posted = { unary_of };

    ghost footing = { λ s. no_footing };

    fn places(&self) -> usize {
        1
    }

    fn term(&self, _i: usize) -> Term {
        self.x
    }
}

impl SupportTest for Unary<'_> {
    fn supported(&self, _c: &Ctx, _i: usize, a: i64) -> bool {
        self.numbers.contains(a)
    }

    fn bare(&self) -> bool {
        true
    }

    fn by_ends(&self) -> bool {
        false
    }
}
