//! Two vectors in lexicographic order: `lexleq` and `lexless`.
ghost use Rattle.std.specs.Prelude.{◌≡◌, ◌↔◌, ◌≤◌, ◌<◌, ◌+ℤ◌, ◌-ℤ◌, ◌<ℤ◌, IsTrue, Some, drop, length, negsuc, pos, slice_get};
ghost use Rattle.mn_prop.specs.Contexts.{box_of, place_hi, place_lo, vars_of};
ghost use Rattle.mn_prop.specs.Footings.{no_footing};
ghost use Rattle.mn_prop.specs.Losses.{Unsupported};
ghost use Rattle.mn_prop.specs.Passes.{IsStep};
ghost use Rattle.mn_prop.specs.Posts.{ClosedUnderLeaf, IsReadyToRun};
ghost use Rattle.mn_lex.specs.Leading.{Leads};
ghost use Rattle.mn_lex.specs.Orders.{AreOneWhere, IsLessAt, greatest_values, least_values};

use crate::pair::{are_one, cut_pair};
use mn_model::{Instance, Term, Terms};
use mn_prop::{Ctx, Fail, Scoped};

/// The first vector comes before the second in lexicographic order, or, where that is asked, is equal to it.
#[derive(Drop)]
pub struct Lexical<'a> {
    pub(crate) v: &'a Terms,
    pub(crate) w: &'a Terms,
    pub(crate) or_equal: bool,
    pub(crate) inst: &'a Instance,
}

impl Lexical<'_> {
    ghost use Rattle.mn_lex.specs.Lexicals.{lexical_of};

    /// Goes through the pairs of places from the front, as long as the first place can't be less than the second: they are left
    /// with one value, the same, or it fails. The first other pair decides, and is cut.
    pub(crate) fn filter(&self, c: &mut Ctx) -> Result<(), Fail>
        requires { IsReadyToRun (vars_of c.old) (lexical_of self.now) }
        ensures { IsStep (Unsupported (lexical_of self.now)) (ClosedUnderLeaf (vars_of c.old) (lexical_of self.now)) c.old c.new result }
    {
        c.lawful();
        for i in 0..self.v.len() {
            let (x, y) = (*self.v.get(i), *self.w.get(i));
            let low = c.lo(x);
            let high = c.hi(y);
            if low < high {
                return self.cut(c, i);
            }
            if are_one(c, x, y) {
                continue;
            }
            cut_pair(c, x, y, high, low)?;
        }
        if self.or_equal { Ok(()) } else { Err(Fail) }
    }

    // Cuts the pair of place `i`, where the first place can be less than the second: equal values stay where what stands behind
    // can be in order.
    fn cut(&self, c: &mut Ctx, i: usize) -> Result<(), Fail>
        requires ready { IsReadyToRun (vars_of c.old) (lexical_of self.now) }
        requires within { i < length self.now.v.now }
        requires before { AreOneWhere (λ j. j < i) (box_of c.old) self.now.v.now self.now.w.now }
        requires less { IsLessAt i (box_of c.old) self.now.v.now self.now.w.now }
        ensures { IsStep (Unsupported (lexical_of self.now)) (ClosedUnderLeaf (vars_of c.old) (lexical_of self.now)) c.old c.new result }
    {
        c.lawful();
        let (x, y) = (*self.v.get(i), *self.w.get(i));
        let least = c.lo(x);
        let most = c.hi(y);
        if self.rest_leads(c, i + 1) {
            cut_pair(c, x, y, most, least)
        } else {
            cut_pair(c, x, y, before(most), behind(least))
        }
    }

    // Whether the places from `from` on have values that are in order. That is told by the least values of the first vector and
    // the greatest of the second, at the first place where they differ.
    fn rest_leads(&self, c: &Ctx, from: usize) -> bool
        requires ready { IsReadyToRun (vars_of c.now) (lexical_of self.now) }
        requires within { from ≤ length self.now.v.now }
        ensures { IsTrue result ↔ Leads self.now.or_equal (least_values (box_of c.now) (drop from self.now.v.now)) (greatest_values (box_of c.now) (drop from self.now.w.now)) }
    {
        for i in from..self.v.len() {
            let least = c.lo(*self.v.get(i));
            let most = c.hi(*self.w.get(i));
            if least != most {
                return least < most;
            }
        }
        self.or_equal
    }
}

// The number before `a`, and the one behind it.
fn before(a: i64) -> i64
    requires { negsuc 9223372036854775807 <ℤ a }
    ensures { result ≡ a -ℤ pos 1 }
{
    a - 1
}

fn behind(a: i64) -> i64
    requires { a <ℤ pos 9223372036854775807 }
    ensures { result ≡ a +ℤ pos 1 }
{
    a + 1
}

impl Scoped for Lexical<'_> {
    ghost use Rattle.mn_lex.specs.Lexicals.{lexical_of};

    ghost posted = { lexical_of };

    ghost footing = { λ l. no_footing };

    fn places(&self) -> usize {
        self.v.as_slice().len() + self.w.as_slice().len()
    }

    fn term(&self, i: usize) -> Term {
        if i < self.v.len() {
            *self.v.get(i)
        } else {
            *self.w.get(i - self.v.len())
        }
    }
}
