//! Two vectors that differ: `watchvecneq`.
ghost use Rattle.std.specs.Prelude.{◌≡◌, ◌≢◌, ◌<◌, OnOk, length};
ghost use Rattle.mn_prop.specs.Contexts.{box_of, vars_of};
ghost use Rattle.mn_prop.specs.Footings.{no_footing};
ghost use Rattle.mn_prop.specs.Losses.{Unsupported};
ghost use Rattle.mn_prop.specs.Passes.{IsStep};
ghost use Rattle.mn_prop.specs.Posts.{ClosedUnderLeaf, IsReadyToRun};
ghost use Rattle.mn_lex.specs.Orders.{AreOneWhere};
ghost use Rattle.mn_lex.specs.Pairs.{IsNextOpen};

use crate::pair::{are_one, drop_value};
use mn_model::{Instance, Term, Terms};
use mn_prop::{Ctx, Fail, Scoped};

/// Two vectors that have different values at some place.
#[derive(Drop)]
pub struct Apart<'a> {
    pub(crate) v: &'a Terms,
    pub(crate) w: &'a Terms,
    pub(crate) inst: &'a Instance,
}

impl Apart<'_> {
    ghost use Rattle.mn_lex.specs.Lexicals.{apart_of};

    /// Keeps the only pair of places apart that may still differ, or fails where there is none.
    pub(crate) fn filter(&self, c: &mut Ctx) -> Result<(), Fail>
        requires { IsReadyToRun (vars_of c.old) (apart_of self.now) }
        ensures step { IsStep (Unsupported (apart_of self.now)) (ClosedUnderLeaf (vars_of c.old) (apart_of self.now)) c.old c.new result }
        ensures settled { OnOk result (ClosedUnderLeaf (vars_of c.old) (apart_of self.now) (box_of c.new)) }
    {
        c.lawful();
        match self.next_open(c, 0) {
            None => Err(Fail),
            Some(i) => match self.next_open(c, i + 1) {
                None => self.part(c, i),
                Some(_) => Ok(()),
            },
        }
    }

    // The first pair of places from `from` on that isn't one value.
    fn next_open(&self, c: &Ctx, from: usize) -> Option<usize>
        requires { IsReadyToRun (vars_of c.now) (apart_of self.now) }
        ensures { IsNextOpen from (box_of c.now) self.now.v.now self.now.w.now result }
    {
        for i in from..self.v.len() {
            if !are_one(c, *self.v.get(i), *self.w.get(i)) {
                return Some(i);
            }
        }
        None
    }

    // Takes the value of a place that has one alone out of the other place of the pair. All other pairs are one value.
    fn part(&self, c: &mut Ctx, i: usize) -> Result<(), Fail>
        requires ready { IsReadyToRun (vars_of c.old) (apart_of self.now) }
        requires within { i < length self.now.v.now }
        requires others { AreOneWhere (λ j. j ≢ i) (box_of c.old) self.now.v.now self.now.w.now }
        ensures step { IsStep (Unsupported (apart_of self.now)) (ClosedUnderLeaf (vars_of c.old) (apart_of self.now)) c.old c.new result }
        ensures settled { OnOk result (ClosedUnderLeaf (vars_of c.old) (apart_of self.now) (box_of c.new)) }
    {
        c.lawful();
        let (x, y) = (*self.v.get(i), *self.w.get(i));
        if c.is_single(x) {
            let a = c.lo(x);
            return drop_value(c, y, a);
        }
        if c.is_single(y) {
            let a = c.lo(y);
            return drop_value(c, x, a);
        }
        Ok(())
    }
}

impl Scoped for Apart<'_> {
    ghost use Rattle.mn_lex.specs.Lexicals.{apart_of};

    ghost posted = { apart_of };

    ghost footing = { λ d. no_footing };

    fn places(&self) -> usize {
        self.v.as_slice().len() + self.w.as_slice().len()
    }

    fn term(&self, i: usize) -> Term {
        if i < self.v.len() {
            *self.v.get(i)
        } else {
            *self.w.get(i - self.v.len())
        }
    }
}
