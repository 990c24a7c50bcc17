//! Products of numbers of two spans, and the numbers that have one in a third span.
ghost use Rattle.std.specs.Prelude.{◌≡◌, ◌↔◌, ℤ, pos, ◌*ℤ◌, ◌<ℤ◌, ◌≤ℤ◌, IsTrue};
ghost use Rattle.mn_model.specs.Lawful.{IsNear};
ghost use Rattle.mn_closure.specs.Supports.{product};
ghost use Rattle.mn_arith.specs.Spans.{GivesAbove, GivesBelow, HasMultiple, HasPartner, IsFirstPartner, IsGreatestOf, IsIn, IsLeastMultiple, IsLeastOf, IsNearSpan, IsNextPartner, IsOpposite, IsPartnerBefore};

use crate::span::{Span, greater, lesser};

impl Span {
    // The least product of numbers of two spans.
    fn least_product(self, other: Span) -> i64
        requires own { IsNearSpan self }
        requires other { IsNearSpan other }
        ensures { IsLeastOf product self other result }
    {
        lesser(other.least_multiple(self.lo), other.least_multiple(self.hi))
    }

    // The greatest product of numbers of two spans.
    fn greatest_product(self, other: Span) -> i64
        requires own { IsNearSpan self }
        requires other { IsNearSpan other }
        ensures { IsGreatestOf product self other result }
    {
        -self.opposite().least_product(other)
    }

    /// From the least product of numbers of two spans to the greatest.
    pub(crate) fn products(self, other: Span) -> Span
        requires own { IsNearSpan self }
        requires other { IsNearSpan other }
        ensures { (a : ℤ) → GivesBelow product a self other → GivesAbove product a self other → IsIn result a }
    {
        Span {
            lo: self.least_product(other),
            hi: self.greatest_product(other),
        }
    }

    /// Whether some numbers of two spans have a product that is at most `a`.
    pub(crate) fn has_product_to(self, a: i64, other: Span) -> bool
        requires own { IsNearSpan self }
        requires other { IsNearSpan other }
        ensures { IsTrue result ↔ GivesBelow product a self other }
    {
        self.least_product(other) <= a
    }

    /// Whether some have one that is at least `a`.
    pub(crate) fn has_product_from(self, a: i64, other: Span) -> bool
        requires own { IsNearSpan self }
        requires other { IsNearSpan other }
        ensures { IsTrue result ↔ GivesAbove product a self other }
    {
        a <= self.greatest_product(other)
    }

    // The least product of `a` and some number of the span, which is one with an end.
    fn least_multiple(self, a: i64) -> i64
        requires near { IsNear a }
        requires own { IsNearSpan self }
        ensures { IsLeastMultiple a self result }
    {
        lesser(times(a, self.lo), times(a, self.hi))
    }

    // The numbers with the other sign.
    fn opposite(self) -> Span
        requires { IsNearSpan self }
        ensures is { IsOpposite self result }
        ensures near { IsNearSpan result }
    {
        Span {
            lo: -self.hi,
            hi: -self.lo,
        }
    }

    /// Whether `a` times some number of the span is in `z`.
    pub(crate) fn has_product(self, a: i64, z: Span) -> bool
        requires near { IsNear a }
        requires own { IsNearSpan self }
        requires other { IsNearSpan z }
        ensures { IsTrue result ↔ HasPartner product a self z }
    {
        if a > 0 {
            return self.has_multiple(a, z);
        }
        if a < 0 {
            return self.opposite().has_multiple(-a, z);
        }
        if 0 < z.lo {
            return false;
        }
        0 <= z.hi
    }

    // The same of a number above 0: the least number of the span that gives enough is tried.
    fn has_multiple(self, a: i64, z: Span) -> bool
        requires above { pos 0 <ℤ a }
        requires near { IsNear a }
        requires own { IsNearSpan self }
        requires other { IsNearSpan z }
        ensures { IsTrue result ↔ HasPartner product a self z }
    {
        let first = greater(self.lo, ceiling(z.lo, a));
        if self.hi < first {
            return false;
        }
        times(a, first) <= z.hi
    }

    /// From the least number of `x` that times some number of the span is in `z` to the greatest one.
    pub(crate) fn factors(self, x: Span, z: Span) -> Span
        requires given { IsNearSpan x }
        requires own { IsNearSpan self }
        requires other { IsNearSpan z }
        ensures { (a : ℤ) → IsIn x a → HasPartner product a self z → IsIn result a }
    {
        Span {
            lo: self.first_factor(x, z),
            hi: -self.opposite().first_factor(x.opposite(), z),
        }
    }

    // The least such number. The search goes on where the quotients say that the next one can be: each step makes the number
    // greater and the quotient less, so it takes at most about twice the root of the greatest number of `z`.
    fn first_factor(self, x: Span, z: Span) -> i64
        requires given { IsNearSpan x }
        requires own { IsNearSpan self }
        requires other { IsNearSpan z }
        ensures { IsFirstPartner product x self z result }
    {
        let mut a = x.lo;
        loop {
            if x.hi < a {
                return x.hi + 1;
            }
            if self.has_product(a, z) {
                return a;
            }
            a = self.next_factor(a, z);
        }
    }

    // Behind `a`, a number that none before it is such.
    fn next_factor(self, a: i64, z: Span) -> i64
        requires near { IsNear a }
        requires own { IsNearSpan self }
        requires other { IsNearSpan z }
        requires none { HasPartner product a self z → ⊥ }
        ensures { IsNextPartner product a self z result }
    {
        if a > 0 {
            return self.factor_after(a, z);
        }
        if a < 0 {
            return -self.opposite().factor_before(-a, z);
        }
        1
    }

    // The same of a number above 0.
    fn factor_after(self, a: i64, z: Span) -> i64
        requires above { pos 0 <ℤ a }
        requires near { IsNear a }
        requires own { IsNearSpan self }
        requires other { IsNearSpan z }
        requires none { HasPartner product a self z → ⊥ }
        ensures { IsNextPartner product a self z result }
    {
        let next = lesser(self.leap(a, z), self.opposite().leap(a, z.opposite()));
        greater(a + 1, next)
    }

    // Before a number above 0, the greatest number that can be such, or 0.
    fn factor_before(self, a: i64, z: Span) -> i64
        requires above { pos 0 <ℤ a }
        requires near { IsNear a }
        requires own { IsNearSpan self }
        requires other { IsNearSpan z }
        requires none { HasPartner product a self z → ⊥ }
        ensures { IsPartnerBefore product a self z result }
    {
        let last = greater(
            self.leap_back(a, z),
            self.opposite().leap_back(a, z.opposite()),
        );
        lesser(a - 1, greater(0, last))
    }

    // No number that is at least `a` and less than this one has a product with a number above 0 of the span in `z`: from `a` on
    // these are at most the quotient of the upper end by `a`, and so a number before has too small products.
    fn leap(self, a: i64, z: Span) -> i64
        requires above { pos 0 <ℤ a }
        requires own { IsNearSpan self }
        requires other { IsNearSpan z }
        ensures { (b : ℤ) → a ≤ℤ b → HasMultiple b self z → result ≤ℤ b }
    {
        let most = lesser(self.hi, floor(z.hi, a));
        if most < greater(1, self.lo) {
            return i64::MAX;
        }
        ceiling(z.lo, most)
    }

    // No number above 0 that is at most `a` and greater than this one has such a product: up to `a` these are at least the
    // quotient of the lower end by `a`.
    fn leap_back(self, a: i64, z: Span) -> i64
        requires above { pos 0 <ℤ a }
        requires own { IsNearSpan self }
        requires other { IsNearSpan z }
        ensures { (b : ℤ) → pos 0 <ℤ b → b ≤ℤ a → HasMultiple b self z → b ≤ℤ result }
    {
        let least = greater(greater(1, self.lo), ceiling(z.lo, a));
        if self.hi < least {
            return 0;
        }
        floor(z.hi, least)
    }
}

// The product of two near numbers.
fn times(a: i64, b: i64) -> i64
    requires first { IsNear a }
    requires second { IsNear b }
    ensures { result ≡ product a b }
{
    a * b
}

// The quotient by a number above 0, rounded down.
fn floor(n: i64, a: i64) -> i64
    requires above { pos 0 <ℤ a }
    ensures { (b : ℤ) → b ≤ℤ result ↔ (a *ℤ b) ≤ℤ n }
{
    n.div_euclid(a)
}

// The quotient by a number above 0, rounded up.
fn ceiling(n: i64, a: i64) -> i64
    requires above { pos 0 <ℤ a }
    requires near { IsNear n }
    ensures { (b : ℤ) → result ≤ℤ b ↔ n ≤ℤ (a *ℤ b) }
{
    -floor(-n, a)
}
