//! The numbers that a constraint of one place lets stand, and how far they reach.
ghost use Rattle.std.specs.Prelude.{◌≡◌, ◌↔◌, IsTrue, ℤ};
ghost use Rattle.mn_model.specs.Domain.{Has};
ghost use Rattle.mn_meaning.specs.Families.{InIntervals};
ghost use Rattle.mn_basic.specs.Intervals.{IsIn};

use crate::interval::Interval;
use mn_meaning::{in_intervals, is_between, is_in};
use mn_model::Ints;

/// Numbers that a place may have.
#[derive(Drop)]
pub enum Numbers<'a> {
    /// One number.
    Is(i64),
    /// All others.
    IsNot(i64),
    /// Those of a list.
    Among(&'a Ints),
    /// All others.
    NotAmong(&'a Ints),
    /// Those from one to another.
    Between(i64, i64),
    /// All others.
    NotBetween(i64, i64),
    /// Those of intervals, which are pairs of ends.
    Within(&'a Ints),
}

impl Numbers<'_> {
    ghost use Rattle.mn_basic.specs.Unaries.{IsOneOf, in_one_change};

    /// Whether `a` is one of them.
    pub(crate) fn contains(&self, a: i64) -> bool
        ensures { IsTrue result ↔ IsOneOf self.now a }
    {
        match self {
            Numbers::Is(k) => a == *k,
            Numbers::IsNot(k) => a != *k,
            Numbers::Among(ks) => is_in(ks, a),
            Numbers::NotAmong(ks) => !is_in(ks, a),
            Numbers::Between(lo, hi) => is_between(a, *lo, *hi),
            Numbers::NotBetween(lo, hi) => !is_between(a, *lo, *hi),
            Numbers::Within(ends) => in_intervals(ends, a),
        }
    }

    /// Whether one change of a place leaves them alone.
    pub(crate) fn in_one_change(&self) -> bool
        ensures { result ≡ in_one_change self.now }
    {
        match self {
            Numbers::Is(_) | Numbers::IsNot(_) | Numbers::Between(_, _) => true,
            Numbers::Among(_) | Numbers::NotAmong(_) => false,
            Numbers::NotBetween(_, _) | Numbers::Within(_) => false,
        }
    }

    /// The part of the interval that reaches from the least to the greatest of them that is in it, or more.
    pub(crate) fn reach(&self, own: Interval) -> Interval
        ensures { (b : ℤ) → IsOneOf self.now b → IsIn own b → IsIn result b }
    {
        match self {
            Numbers::Is(_) => own,
            Numbers::IsNot(_) => own,
            Numbers::Among(ks) => reach_of(ks, own),
            Numbers::NotAmong(ks) => lowered_past(ks, raised_past(ks, own)),
            Numbers::Between(_, _) => own,
            Numbers::NotBetween(lo, hi) => own.without(*lo, *hi),
            Numbers::Within(ends) => reach_across(ends, own),
        }
    }
}

// The part of the interval that reaches from the least to the greatest number of the list that is in it.
fn reach_of(ks: &Ints, own: Interval) -> Interval
    ensures { (b : ℤ) → Has ks.now b → IsIn own b → IsIn result b }
{
    let mut span = Interval::empty();
    for k in ks.as_slice() {
        span = span.with(Interval::of(*k, *k), own);
    }
    span
}

// The same of intervals.
fn reach_across(ends: &Ints, own: Interval) -> Interval
    ensures { (b : ℤ) → InIntervals ends.now b → IsIn own b → IsIn result b }
{
    let mut span = Interval::empty();
    let mut rest = ends.as_slice();
    while rest.len() >= 2 {
        let (first, others) = rest.split_at(2);
        span = span.with(Interval::of(first[0], first[1]), own);
        rest = others;
    }
    span
}

// Without the numbers of the list at its ends: at the lower one in the list's order, and at the upper one in the other.
fn raised_past(ks: &Ints, own: Interval) -> Interval
    ensures { (b : ℤ) → (Has ks.now b → ⊥) → IsIn own b → IsIn result b }
{
    let mut span = own;
    for k in ks.as_slice() {
        span = span.without(*k, *k);
    }
    span
}

fn lowered_past(ks: &Ints, own: Interval) -> Interval
    ensures { (b : ℤ) → (Has ks.now b → ⊥) → IsIn own b → IsIn result b }
{
    let mut span = own;
    for k in ks.as_slice().iter().rev() {
        span = span.without(*k, *k);
    }
    span
}
