//! Intervals of numbers.
ghost use Rattle.std.specs.Prelude.{◌≡◌, ◌≤ℤ◌, ◌⊎◌, OnOk, ℤ};
ghost use Rattle.mn_prop.specs.Contexts.{IsNamed, box_of, vars_of};
ghost use Rattle.mn_prop.specs.Passes.{IsStep};

use mn_model::Term;
use mn_prop::{Ctx, Fail};

/// All numbers from one to another.
#[derive(Clone, Copy, Debug, PartialEq, Eq)]
pub(crate) struct Interval {
    pub(crate) lo: i64,
    pub(crate) hi: i64,
}

impl Interval {
    ghost use Rattle.mn_basic.specs.Intervals.{AllIn, IsIn, OutOf};

    /// The numbers from one to another.
    pub(crate) fn of(lo: i64, hi: i64) -> Interval
        ensures lo { result.lo ≡ lo }
        ensures hi { result.hi ≡ hi }
    {
        Interval { lo, hi }
    }

    /// No number but those that are added.
    pub(crate) fn empty() -> Interval {
        Interval {
            lo: i64::MAX,
            hi: i64::MIN,
        }
    }

    /// With what a part and another interval have in common, and all that is between.
    pub(crate) fn with(self, part: Interval, own: Interval) -> Interval
        ensures before { (b : ℤ) → IsIn self b → IsIn result b }
        ensures added { (b : ℤ) → IsIn part b → IsIn own b → IsIn result b }
    {
        let lo = greater(part.lo, own.lo);
        let hi = less(part.hi, own.hi);
        if hi < lo {
            return self;
        }
        Interval {
            lo: less(self.lo, lo),
            hi: greater(self.hi, hi),
        }
    }

    /// Without the numbers from one to another, where they stand at an end.
    pub(crate) fn without(self, from: i64, to: i64) -> Interval
        ensures { (b : ℤ) → IsIn self b → ((from ≤ℤ b) × (b ≤ℤ to) → ⊥) → IsIn result b }
    {
        Interval {
            lo: above(self.lo, from, to),
            hi: below(self.hi, from, to),
        }
    }

    /// Keeps the values of the place that are in the interval.
    pub(crate) fn keep(self, c: &mut Ctx, t: Term) -> Result<(), Fail>
        requires { IsNamed (vars_of c.old) t }
        ensures step { IsStep (OutOf self t) (AllIn self t) c.old c.new result }
        ensures settled { OnOk result (AllIn self t (box_of c.new)) }
    {
        c.set_lo(t, self.lo)?;
        c.set_hi(t, self.hi)
    }
}

fn less(a: i64, b: i64) -> i64
    ensures first { result ≤ℤ a }
    ensures second { result ≤ℤ b }
    ensures one { (result ≡ a) ⊎ (result ≡ b) }
{
    if a < b { a } else { b }
}

fn greater(a: i64, b: i64) -> i64
    ensures first { a ≤ℤ result }
    ensures second { b ≤ℤ result }
    ensures one { (result ≡ a) ⊎ (result ≡ b) }
{
    if a < b { b } else { a }
}

// The next number that isn't one of those from one to another, and the one before them.
fn above(a: i64, from: i64, to: i64) -> i64
    ensures { (b : ℤ) → a ≤ℤ b → ((from ≤ℤ b) × (b ≤ℤ to) → ⊥) → result ≤ℤ b }
{
    if from <= a && a <= to && to < i64::MAX {
        to + 1
    } else {
        a
    }
}

fn below(a: i64, from: i64, to: i64) -> i64
    ensures { (b : ℤ) → b ≤ℤ a → ((from ≤ℤ b) × (b ≤ℤ to) → ⊥) → b ≤ℤ result }
{
    if from <= a && a <= to && i64::MIN < from {
        from - 1
    } else {
        a
    }
}
