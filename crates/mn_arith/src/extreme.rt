//! A place that is the greatest or the least of others: `max` and `min`.
ghost use Rattle.std.specs.Prelude.{◌≡◌, ◌↔◌, ◌<◌, ◌⊎◌, IsTrue, false, length, not, true};
ghost use Rattle.mn_meaning.specs.Families.{IsWithin};
ghost use Rattle.mn_prop.specs.Contexts.{ChangedAt, IsNamed, box_of, vars_of};
ghost use Rattle.mn_prop.specs.Footings.{no_footing};
ghost use Rattle.mn_prop.specs.Losses.{Unsupported};
ghost use Rattle.mn_prop.specs.Passes.{IsStep};
ghost use Rattle.mn_prop.specs.Posts.{ClosedUnderLeaf, IsReadyToRun};
ghost use Rattle.mn_prop.specs.Revising.{PlaceClosed};
ghost use Rattle.mn_arith.specs.Extremes.{AllCovered, AllReach, IsEndOf, IsFirstFrom, IsHolder, IsNextShared, IsReachBeside, IsSpread, OnceReached, OnlyLeft, OtherHas, OtherShares, OthersReach, Reaches, Shares, SomeExtreme, extreme_of, within};
ghost use Rattle.mn_arith.specs.Finds.{IsFoundIn};
ghost use Rattle.mn_arith.specs.Pruning.{IsPart};

use crate::found::Found;
use mn_model::{Instance, Term, Terms};
use mn_prop::{Ctx, Fail, Scoped, SupportTest, revise};

/// A place that is the greatest of others, or the least.
#[derive(Drop)]
pub struct Extreme<'a> {
    pub(crate) greatest: bool,
    pub(crate) terms: &'a Terms,
    pub(crate) x: Term,
    pub(crate) inst: &'a Instance,
}

/// Between which values the extreme of the places is: it comes as far as `near`, and not past `far`.
#[derive(Clone, Copy)]
pub(crate) struct Spread {
    near: i64,
    far: i64,
}

// The greatest value of the place, or else the least.
fn end_of(greatest: bool, c: &Ctx, t: Term) -> i64
    requires { IsNamed (vars_of c.now) t }
    ensures { IsEndOf greatest (box_of c.now) t result }
{
    if greatest { c.hi(t) } else { c.lo(t) }
}

// The greater of two numbers, or else the lesser.
fn farther(greatest: bool, a: i64, b: i64) -> i64
    ensures first { IsWithin greatest result a }
    ensures second { IsWithin greatest result b }
    ensures one { (result ≡ a) ⊎ (result ≡ b) }
{
    if is_within(greatest, a, b) { a } else { b }
}

// Takes the values of the place that go past `m`.
fn cut(greatest: bool, c: &mut Ctx, t: Term, m: i64) -> Result<(), Fail>
    requires { IsNamed (vars_of c.old) t }
    ensures { ChangedAt (within greatest m) t c.old c.new result }
{
    if greatest {
        c.set_hi(t, m)
    } else {
        c.set_lo(t, m)
    }
}

// Whether `b` is at most `a` where `a` is to be the greatest, and else at least `a`.
fn is_within(greatest: bool, a: i64, b: i64) -> bool
    ensures { IsTrue result ↔ IsWithin greatest a b }
{
    if greatest { b <= a } else { a <= b }
}

// Whether some value of the place doesn't go past `m`.
fn reaches(greatest: bool, c: &Ctx, t: Term, m: i64) -> bool
    requires { IsNamed (vars_of c.now) t }
    ensures { IsTrue result ↔ Reaches greatest m (box_of c.now) t }
{
    let nearest = if greatest { c.lo(t) } else { c.hi(t) };
    is_within(greatest, m, nearest)
}

// How far the extreme comes at least by the place, or as far as it did if the place is left out.
fn reach_of(greatest: bool, c: &Ctx, t: Term, is_left_out: bool, reach: i64) -> i64
    requires { IsNamed (vars_of c.now) t }
    ensures out { IsTrue is_left_out → result ≡ reach }
    ensures end { is_left_out ≡ false → IsEndOf (not greatest) (box_of c.now) t result }
{
    if is_left_out {
        reach
    } else {
        end_of(!greatest, c, t)
    }
}

// Whether two places have a value in common that doesn't come before `m`.
fn shares_past(greatest: bool, c: &Ctx, t: Term, u: Term, m: i64) -> bool
    requires first { IsNamed (vars_of c.now) t }
    requires second { IsNamed (vars_of c.now) u }
    ensures { IsTrue result ↔ Shares greatest (box_of c.now) t u m }
{
    if greatest {
        shares_from(c, t, u, m)
    } else {
        shares_to(c, t, u, m)
    }
}

// The same of a value that is at least `m`, and at most.
fn shares_from(c: &Ctx, t: Term, u: Term, m: i64) -> bool
    requires first { IsNamed (vars_of c.now) t }
    requires second { IsNamed (vars_of c.now) u }
    ensures { IsTrue result ↔ Shares true (box_of c.now) t u m }
{
    match next_shared(c, t, u, m) {
        Some(_) => true,
        None => false,
    }
}

fn shares_to(c: &Ctx, t: Term, u: Term, m: i64) -> bool
    requires first { IsNamed (vars_of c.now) t }
    requires second { IsNamed (vars_of c.now) u }
    ensures { IsTrue result ↔ Shares false (box_of c.now) t u m }
{
    match next_shared(c, t, u, c.lo(t)) {
        Some(least) => least <= m,
        None => false,
    }
}

// The least value of the place that is at least `a`.
fn at_or_next(c: &Ctx, t: Term, a: i64) -> Option<i64>
    requires { IsNamed (vars_of c.now) t }
    ensures { IsFirstFrom (box_of c.now) t a result }
{
    if c.has(t, a) {
        return Some(a);
    }
    c.next(t, a)
}

// The least value that two places have in common and that is at least `a`. It goes from one place to the other and back, each
// time to the next value there.
fn next_shared(c: &Ctx, t: Term, u: Term, a: i64) -> Option<i64>
    requires first { IsNamed (vars_of c.now) t }
    requires second { IsNamed (vars_of c.now) u }
    ensures { IsNextShared (box_of c.now) t u a result }
{
    let mut b = match at_or_next(c, t, a) {
        Some(first) => first,
        None => return None,
    };
    loop {
        if c.has(u, b) {
            return Some(b);
        }
        let behind = match c.next(u, b) {
            Some(next) => next,
            None => return None,
        };
        match at_or_next(c, t, behind) {
            Some(later) => b = later,
            None => return None,
        }
    }
}

impl Extreme<'_> {
    /// Takes values that aren't supported: first those that the ends of the places tell, then what no place has, and then
    /// those of a place that alone can be the extreme.
    pub(crate) fn filter(&self, found: &mut Option<Found>, c: &mut Ctx) -> Result<(), Fail>
        requires { IsReadyToRun (vars_of c.old) (extreme_of self.now) }
        ensures { IsStep (Unsupported (extreme_of self.now)) (ClosedUnderLeaf (vars_of c.old) (extreme_of self.now)) c.old c.new result }
    {
        if self.terms.len() == 0 {
            return Err(Fail);
        }
        self.cut_extreme(c)?;
        self.narrow_extreme(found, c)?;
        self.cut_places(c)?;
        self.narrow_only(c)
    }

    // Takes from x what no place has: by the set of what they have, if there is room for it, and else value by value.
    fn narrow_extreme(&self, found: &mut Option<Found>, c: &mut Ctx) -> Result<(), Fail>
        requires { IsReadyToRun (vars_of c.old) (extreme_of self.now) }
        ensures { IsPart (extreme_of self.now) (OnceReached (vars_of c.old) (extreme_of self.now) self.now.greatest self.now.terms.now self.now.x) c.old c.new result }
    {
        if let Some(sets) = found {
            if sets.gather_all(self, c) {
                return self.keep_found(sets, c);
            }
        }
        self.revise_extreme(c)
    }

    // Keeps the values of x that were found.
    fn keep_found(&self, found: &Found, c: &mut Ctx) -> Result<(), Fail>
        requires ready { IsReadyToRun (vars_of c.old) (extreme_of self.now) }
        requires found { IsFoundIn self.now.terms.now (length self.now.terms.now) (box_of c.old) found.now.set }
        ensures { IsPart (extreme_of self.now) (OnceReached (vars_of c.old) (extreme_of self.now) self.now.greatest self.now.terms.now self.now.x) c.old c.new result }
    {
        c.keep(self.x, found.set())
    }

    // Takes from x each value that isn't supported.
    fn revise_extreme(&self, c: &mut Ctx) -> Result<(), Fail>
        requires { IsReadyToRun (vars_of c.old) (extreme_of self.now) }
        ensures { IsPart (extreme_of self.now) (OnceReached (vars_of c.old) (extreme_of self.now) self.now.greatest self.now.terms.now self.now.x) c.old c.new result }
    {
        revise(self, c, self.terms.len())
    }

    // Cuts x to where the extreme of the places can be.
    fn cut_extreme(&self, c: &mut Ctx) -> Result<(), Fail>
        requires ready { IsReadyToRun (vars_of c.old) (extreme_of self.now) }
        requires some { 0 < length self.now.terms.now }
        ensures { IsPart (extreme_of self.now) (AllReach self.now.greatest self.now.terms.now self.now.x) c.old c.new result }
    {
        let spread = self.spread(c);
        cut(!self.greatest, c, self.x, spread.near)?;
        cut(self.greatest, c, self.x, spread.far)
    }

    // Where the extreme of the places can be.
    fn spread(&self, c: &Ctx) -> Spread
        requires ready { IsReadyToRun (vars_of c.now) (extreme_of self.now) }
        requires some { 0 < length self.now.terms.now }
        ensures { IsSpread self.now.greatest self.now.terms.now (box_of c.now) result.near result.far }
    {
        let first = *self.terms.get(0);
        let mut near = end_of(!self.greatest, c, first);
        let mut far = end_of(self.greatest, c, first);
        for t in self.terms.as_slice() {
            near = farther(self.greatest, near, end_of(!self.greatest, c, *t));
            far = farther(self.greatest, far, end_of(self.greatest, c, *t));
        }
        Spread { near, far }
    }

    // Takes from each place the values that go past those of x.
    fn cut_places(&self, c: &mut Ctx) -> Result<(), Fail>
        requires { IsReadyToRun (vars_of c.old) (extreme_of self.now) }
        ensures { IsPart (extreme_of self.now) (AllCovered self.now.greatest self.now.terms.now self.now.x) c.old c.new result }
    {
        let far = end_of(self.greatest, c, self.x);
        for t in self.terms.as_slice() {
            cut(self.greatest, c, *t, far)?;
        }
        Ok(())
    }

    // Takes values of the place that alone has the value of x that is farthest, if one is alone with it. The other places have
    // all theirs by that one.
    fn narrow_only(&self, c: &mut Ctx) -> Result<(), Fail>
        requires { IsReadyToRun (vars_of c.old) (extreme_of self.now) }
        ensures { IsPart (extreme_of self.now) (OnlyLeft (vars_of c.old) (extreme_of self.now) self.now.greatest self.now.terms.now self.now.x) c.old c.new result }
    {
        c.lawful();
        let far = end_of(self.greatest, c, self.x);
        match self.holder(c, far) {
            Some(i) => {
                if self.other_has(c, i, far) {
                    return Ok(());
                }
                self.narrow_place(c, i)
            }
            None => Ok(()),
        }
    }

    // A place that has `m`.
    fn holder(&self, c: &Ctx, m: i64) -> Option<usize>
        requires { IsReadyToRun (vars_of c.now) (extreme_of self.now) }
        ensures { IsHolder self.now.terms.now m (box_of c.now) result }
    {
        for (j, t) in self.terms.as_slice().iter().enumerate() {
            if c.has(*t, m) {
                return Some(j);
            }
        }
        None
    }

    // Takes values of a place.
    fn narrow_place(&self, c: &mut Ctx, i: usize) -> Result<(), Fail>
        requires ready { IsReadyToRun (vars_of c.old) (extreme_of self.now) }
        requires within { i < length self.now.terms.now }
        ensures { IsPart (extreme_of self.now) (PlaceClosed (vars_of c.old) (extreme_of self.now) i) c.old c.new result }
    {
        self.cut_before(c, i)?;
        revise(self, c, i)
    }

    // Where the nearest value of a place isn't supported none is that x doesn't have, so all before those of x go at once.
    fn cut_before(&self, c: &mut Ctx, i: usize) -> Result<(), Fail>
        requires ready { IsReadyToRun (vars_of c.old) (extreme_of self.now) }
        requires within { i < length self.now.terms.now }
        ensures { IsPart (extreme_of self.now) (λ box. Unit {0}) c.old c.new result }
    {
        let t = *self.terms.get(i);
        let near = end_of(!self.greatest, c, t);
        if self.some_can_be(c, i, near) {
            return Ok(());
        }
        let least = end_of(!self.greatest, c, self.x);
        cut(!self.greatest, c, t, least)
    }

    // Whether no place but that at `i` has to go past `m`.
    fn others_reach(&self, c: &Ctx, i: usize, m: i64) -> bool
        requires { IsReadyToRun (vars_of c.now) (extreme_of self.now) }
        ensures { IsTrue result ↔ OthersReach self.now.terms.now i self.now.greatest m (box_of c.now) }
    {
        for (j, t) in self.terms.as_slice().iter().enumerate() {
            if j != i && !reaches(self.greatest, c, *t, m) {
                return false;
            }
        }
        true
    }

    // Whether a place other than that at `i` has `m`.
    fn other_has(&self, c: &Ctx, i: usize, m: i64) -> bool
        requires { IsReadyToRun (vars_of c.now) (extreme_of self.now) }
        ensures { IsTrue result ↔ OtherHas self.now.terms.now i m (box_of c.now) }
    {
        for (j, t) in self.terms.as_slice().iter().enumerate() {
            if j != i && c.has(*t, m) {
                return true;
            }
        }
        false
    }

    // Whether a place other than that at `i` has `m`, and none of them has to go past it.
    fn is_met(&self, c: &Ctx, i: usize, m: i64) -> bool
        requires { IsReadyToRun (vars_of c.now) (extreme_of self.now) }
        ensures { IsTrue result ↔ (OtherHas self.now.terms.now i m (box_of c.now) × OthersReach self.now.terms.now i self.now.greatest m (box_of c.now)) }
    {
        if !self.other_has(c, i, m) {
            return false;
        }
        self.others_reach(c, i, m)
    }

    // Whether with `a` at place `i` some value of x can be the extreme. It is `a` itself, or another place has it too.
    fn some_can_be(&self, c: &Ctx, i: usize, a: i64) -> bool
        requires { IsReadyToRun (vars_of c.now) (extreme_of self.now) }
        ensures { IsTrue result ↔ SomeExtreme self.now.terms.now self.now.x i a self.now.greatest (box_of c.now) }
    {
        let reach = self.reach_beside(c, i, a);
        if reach == a && c.has(self.x, a) {
            return true;
        }
        self.other_shares(c, i, reach)
    }

    // How far the extreme comes at least with `a` at place `i`.
    fn reach_beside(&self, c: &Ctx, i: usize, a: i64) -> i64
        requires { IsReadyToRun (vars_of c.now) (extreme_of self.now) }
        ensures { IsReachBeside self.now.terms.now i a self.now.greatest result (box_of c.now) }
    {
        let mut reach = a;
        for (j, t) in self.terms.as_slice().iter().enumerate() {
            reach = farther(
                self.greatest,
                reach,
                reach_of(self.greatest, c, *t, i == j, reach),
            );
        }
        reach
    }

    // Whether a place other than that at `i` has a value in common with x that doesn't come before `m`.
    fn other_shares(&self, c: &Ctx, i: usize, m: i64) -> bool
        requires { IsReadyToRun (vars_of c.now) (extreme_of self.now) }
        ensures { IsTrue result ↔ OtherShares self.now.terms.now self.now.x i self.now.greatest m (box_of c.now) }
    {
        for (j, t) in self.terms.as_slice().iter().enumerate() {
            if j != i && shares_past(self.greatest, c, *t, self.x, m) {
                return true;
            }
        }
        false
    }
}

impl Scoped for Extreme<'_> {
    ghost posted = { extreme_of };

    ghost footing = { λ _. no_footing };

    fn places(&self) -> usize {
        self.terms.as_slice().len() + 1
    }

    fn term(&self, i: usize) -> Term {
        if i < self.terms.len() {
            *self.terms.get(i)
        } else {
            self.x
        }
    }
}

impl SupportTest for Extreme<'_> {
    fn supported(&self, c: &Ctx, i: usize, a: i64) -> bool {
        if i < self.terms.len() {
            self.some_can_be(c, i, a)
        } else {
            self.is_met(c, i, a)
        }
    }

    fn bare(&self) -> bool {
        true
    }

    fn by_ends(&self) -> bool {
        false
    }
}
