//! Two places one of which tells the other: `eq`, `minuseq` and `abs`.
ghost use Rattle.std.specs.Prelude.{◌≡◌, ◌↔◌, ◌≤ℤ◌, IsTrue, ℤ, neg_ℤ, pos};
ghost use Rattle.std.proofs.Common.{nat_abs};
ghost use Rattle.mn_model.specs.Lawful.{IsNear};
ghost use Rattle.mn_prop.specs.Contexts.{IsNamed, box_of, vars_of};
ghost use Rattle.mn_prop.specs.Footings.{no_footing};
ghost use Rattle.mn_prop.specs.Losses.{Unsupported};
ghost use Rattle.mn_prop.specs.Passes.{IsStep, Narrows};
ghost use Rattle.mn_prop.specs.Posts.{ClosedUnderLeaf, IsReadyToRun};
ghost use Rattle.mn_basic.specs.Binaries.{SomeAt};
ghost use Rattle.mn_basic.specs.Intervals.{IsIn, IsSmall};

use crate::interval::Interval;
use mn_model::{Instance, Term};
use mn_prop::{Ctx, Fail, Scoped, SupportTest, revise_all};

/// What the second of two values tells of the first.
#[derive(Clone, Copy, Debug, PartialEq, Eq)]
pub enum Tie {
    /// It is the second.
    Equal,
    /// It is the second with the other sign.
    Opposite,
    /// It is the second without its sign.
    Absolute,
}

/// Two places that are tied.
#[derive(Drop)]
pub struct Tied<'a> {
    pub(crate) tie: Tie,
    pub(crate) x: Term,
    pub(crate) y: Term,
    pub(crate) inst: &'a Instance,
}

impl Tied<'_> {
    ghost use Rattle.mn_basic.specs.Ties.{tied_of};

    /// Cuts either place by the ends of the other, and then tests each value.
    pub(crate) fn filter(&self, c: &mut Ctx) -> Result<(), Fail>
        requires { IsReadyToRun (vars_of c.old) (tied_of self.now) }
        ensures { IsStep (Unsupported (tied_of self.now)) (ClosedUnderLeaf (vars_of c.old) (tied_of self.now)) c.old c.new result }
    {
        self.cut_first(c)?;
        self.revise_second(c)
    }

    // Cuts the second place, and then tests each value.
    fn revise_second(&self, c: &mut Ctx) -> Result<(), Fail>
        requires { IsReadyToRun (vars_of c.old) (tied_of self.now) }
        ensures { IsStep (Unsupported (tied_of self.now)) (ClosedUnderLeaf (vars_of c.old) (tied_of self.now)) c.old c.new result }
    {
        self.cut_second(c)?;
        revise_all(self, c)
    }

    // Cuts the first place to what the ends of the second leave it.
    fn cut_first(&self, c: &mut Ctx) -> Result<(), Fail>
        requires { IsReadyToRun (vars_of c.old) (tied_of self.now) }
        ensures { Narrows (Unsupported (tied_of self.now)) (ClosedUnderLeaf (vars_of c.old) (tied_of self.now)) c.old c.new result }
    {
        c.lawful();
        let other = Interval::of(c.lo(self.y), c.hi(self.y));
        self.tie.first_of(other).keep(c, self.x)
    }

    // Cuts the second place to what the ends of the first leave it.
    fn cut_second(&self, c: &mut Ctx) -> Result<(), Fail>
        requires { IsReadyToRun (vars_of c.old) (tied_of self.now) }
        ensures { Narrows (Unsupported (tied_of self.now)) (ClosedUnderLeaf (vars_of c.old) (tied_of self.now)) c.old c.new result }
    {
        c.lawful();
        let other = Interval::of(c.lo(self.x), c.hi(self.x));
        let own = Interval::of(c.lo(self.y), c.hi(self.y));
        self.tie.second_of(other, own).keep(c, self.y)
    }
}

impl Tie {
    ghost use Rattle.mn_basic.specs.Ties.{IsTied};

    // What a number of the interval tells.
    fn first_of(self, other: Interval) -> Interval
        requires { IsSmall other }
        ensures { (a b : ℤ) → IsTied self a b → IsIn other b → IsIn result a }
    {
        match self {
            Tie::Equal => other,
            Tie::Opposite => opposite(other),
            Tie::Absolute => unsigned(other),
        }
    }

    // What tells a number of the interval and is in another one itself, or more.
    fn second_of(self, other: Interval, own: Interval) -> Interval
        requires other { IsSmall other }
        requires own { IsSmall own }
        ensures { (a b : ℤ) → IsTied self a b → IsIn other a → IsIn own b → IsIn result b }
    {
        match self {
            Tie::Equal => other,
            Tie::Opposite => opposite(other),
            Tie::Absolute => signed(other, own),
        }
    }

    // Whether `a` is told by a value of the place.
    fn has_second(self, c: &Ctx, t: Term, a: i64) -> bool
        requires named { IsNamed (vars_of c.now) t }
        requires near { IsNear a }
        ensures { IsTrue result ↔ SomeAt (box_of c.now) t (λ b. IsTied self a b) }
    {
        match self {
            Tie::Equal => c.has(t, a),
            Tie::Opposite => c.has(t, -a),
            Tie::Absolute => has_unsigned(c, t, a),
        }
    }

    // Whether `a` tells a value of the place.
    fn has_first(self, c: &Ctx, t: Term, a: i64) -> bool
        requires named { IsNamed (vars_of c.now) t }
        requires near { IsNear a }
        ensures { IsTrue result ↔ SomeAt (box_of c.now) t (λ b. IsTied self b a) }
    {
        match self {
            Tie::Equal => c.has(t, a),
            Tie::Opposite => c.has(t, -a),
            Tie::Absolute => c.has(t, a.abs()),
        }
    }
}

// Whether the place has a value that is `a` without its sign.
fn has_unsigned(c: &Ctx, t: Term, a: i64) -> bool
    requires named { IsNamed (vars_of c.now) t }
    requires near { IsNear a }
    ensures { IsTrue result ↔ SomeAt (box_of c.now) t (λ b. a ≡ pos (nat_abs b)) }
{
    a >= 0 && (c.has(t, a) || c.has(t, -a))
}

// The numbers of the interval with the other sign.
fn opposite(s: Interval) -> Interval
    requires { IsSmall s }
    ensures { (b : ℤ) → IsIn s b → IsIn result (neg_ℤ b) }
{
    Interval::of(-s.hi, -s.lo)
}

// Those without their sign.
fn unsigned(s: Interval) -> Interval
    requires { IsSmall s }
    ensures { (b : ℤ) → IsIn s b → IsIn result (pos (nat_abs b)) }
{
    Interval::of(unsigned_lo(s), unsigned_hi(s))
}

fn unsigned_lo(s: Interval) -> i64
    requires { IsSmall s }
    ensures { (b : ℤ) → IsIn s b → result ≤ℤ pos (nat_abs b) }
{
    if s.lo > 0 {
        s.lo
    } else if s.hi < 0 {
        -s.hi
    } else {
        0
    }
}

fn unsigned_hi(s: Interval) -> i64
    requires { IsSmall s }
    ensures { (b : ℤ) → IsIn s b → pos (nat_abs b) ≤ℤ result }
{
    if -s.lo < s.hi { s.hi } else { -s.lo }
}

// The numbers of another interval that are in this one without their sign, or more.
fn signed(s: Interval, own: Interval) -> Interval
    requires small { IsSmall s }
    requires own { IsSmall own }
    ensures { (b : ℤ) → IsIn s (pos (nat_abs b)) → IsIn own b → IsIn result b }
{
    Interval::of(signed_lo(s, own), signed_hi(s, own))
}

fn signed_lo(s: Interval, own: Interval) -> i64
    requires small { IsSmall s }
    requires own { IsSmall own }
    ensures { (b : ℤ) → IsIn s (pos (nat_abs b)) → IsIn own b → result ≤ℤ b }
{
    if own.lo > -s.lo { s.lo } else { -s.hi }
}

fn signed_hi(s: Interval, own: Interval) -> i64
    requires small { IsSmall s }
    requires own { IsSmall own }
    ensures { (b : ℤ) → IsIn s (pos (nat_abs b)) → IsIn own b → b ≤ℤ result }
{
    if own.hi < s.lo { -s.lo } else { s.hi }
}

impl Scoped for Tied<'_> {
    ghost use Rattle.mn_basic.specs.Ties.{tied_of};

    ghost posted = { tied_of };

    ghost footing = { λ s. no_footing };

    fn places(&self) -> usize {
        2
    }

    fn term(&self, i: usize) -> Term {
        if i == 0 { self.x } else { self.y }
    }
}

impl SupportTest for Tied<'_> {
    fn supported(&self, c: &Ctx, i: usize, a: i64) -> bool {
        c.lawful();
        if i == 0 {
            self.tie.has_second(c, self.y, a)
        } else {
            self.tie.has_first(c, self.x, a)
        }
    }

    fn bare(&self) -> bool {
        true
    }

    fn by_ends(&self) -> bool {
        false
    }
}
