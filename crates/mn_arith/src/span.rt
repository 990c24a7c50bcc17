//! All numbers from one to another, and how far apart such numbers are.
ghost use Rattle.std.specs.Prelude.{◌≡◌, ◌↔◌, ◌⊎◌, ℤ, ◌+ℤ◌, ◌-ℤ◌, ◌<ℤ◌, ◌≤ℤ◌, IsTrue};
ghost use Rattle.mn_model.specs.Lawful.{IsNear};
ghost use Rattle.mn_closure.specs.Supports.{difference};
ghost use Rattle.mn_arith.specs.Spans.{GivesAbove, GivesBelow, HasPartner, IsIn, IsLeastSize, IsNearSpan, SomeBoth};

/// All numbers from one to another.
#[derive(Clone, Copy)]
pub(crate) struct Span {
    pub(crate) lo: i64,
    pub(crate) hi: i64,
}

impl Span {
    // Whether some number of the span is in another one.
    fn meets(self, lo: i64, hi: i64) -> bool
        requires filled { self.lo ≤ℤ self.hi }
        requires other { lo ≤ℤ hi }
        ensures { IsTrue result ↔ SomeBoth self lo hi }
    {
        if hi < self.lo {
            return false;
        }
        if self.hi < lo {
            return false;
        }
        true
    }

    /// Whether it has the same ends.
    pub(crate) fn is(self, other: Span) -> bool
        ensures { IsTrue result ↔ ((self.lo ≡ other.lo) × (self.hi ≡ other.hi)) }
    {
        if self.lo != other.lo {
            return false;
        }
        self.hi == other.hi
    }

    // Its least number that isn't below 0.
    fn least_size(self) -> i64
        ensures { IsLeastSize self result }
    {
        if self.lo < 0 { 0 } else { self.lo }
    }

    /// Whether the distance of `a` from some number of the span is in `z`.
    pub(crate) fn has_distance(self, a: i64, z: Span) -> bool
        requires near { IsNear a }
        requires own { IsNearSpan self }
        requires other { IsNearSpan z }
        ensures { IsTrue result ↔ HasPartner difference a self z }
    {
        let least = z.least_size();
        if z.hi < least {
            return false;
        }
        if self.meets(less(a, z.hi), less(a, least)) {
            return true;
        }
        self.meets(more(a, least), more(a, z.hi))
    }

    /// From the least number of `x` that is as far from some number of the span as `z` says to the greatest one. Those that are
    /// too near to every number of the span are between the two sides of such numbers.
    pub(crate) fn around(self, x: Span, z: Span) -> Span
        requires given { IsNearSpan x }
        requires own { IsNearSpan self }
        requires other { IsNearSpan z }
        ensures { (a : ℤ) → IsIn x a → HasPartner difference a self z → IsIn result a }
    {
        let least = z.least_size();
        let below = less(self.hi, least);
        let above = more(self.lo, least);
        Span {
            lo: beyond(below, x.lo, above, less(self.lo, z.hi)),
            hi: beyond(x.hi, above, below, more(self.hi, z.hi)),
        }
    }

    /// The numbers from the least distance of numbers of two spans to the greatest.
    pub(crate) fn distances(self, other: Span) -> Span
        requires own { IsNearSpan self }
        requires other { IsNearSpan other }
        ensures { (a : ℤ) → GivesBelow difference a self other → GivesAbove difference a self other → IsIn result a }
    {
        let apart = greater(less(self.lo, other.hi), less(other.lo, self.hi));
        Span {
            lo: greater(0, apart),
            hi: greater(less(self.hi, other.lo), less(other.hi, self.lo)),
        }
    }

    /// Whether some numbers of two spans are at most `a` apart.
    pub(crate) fn is_near(self, a: i64, other: Span) -> bool
        requires own { IsNearSpan self }
        requires other { IsNearSpan other }
        ensures { IsTrue result ↔ GivesBelow difference a self other }
    {
        if a < 0 {
            return false;
        }
        if a < less(self.lo, other.hi) {
            return false;
        }
        if a < less(other.lo, self.hi) {
            return false;
        }
        true
    }

    /// Whether some are at least `a` apart.
    pub(crate) fn is_far(self, a: i64, other: Span) -> bool
        requires own { IsNearSpan self }
        requires other { IsNearSpan other }
        ensures { IsTrue result ↔ GivesAbove difference a self other }
    {
        if a <= less(self.hi, other.lo) {
            return true;
        }
        if a <= less(other.hi, self.lo) {
            return true;
        }
        false
    }
}

// `over` where `end` is less than `from`, and else `short`.
fn beyond(end: i64, from: i64, over: i64, short: i64) -> i64
    ensures { ((end <ℤ from) × (result ≡ over)) ⊎ (result ≡ short) }
{
    if end < from { over } else { short }
}

/// The greater and the lesser of two numbers.
pub(crate) fn greater(a: i64, b: i64) -> i64
    ensures first { a ≤ℤ result }
    ensures second { b ≤ℤ result }
    ensures one { (result ≡ a) ⊎ (result ≡ b) }
{
    if a < b { b } else { a }
}

pub(crate) fn lesser(a: i64, b: i64) -> i64
    ensures first { result ≤ℤ a }
    ensures second { result ≤ℤ b }
    ensures one { (result ≡ a) ⊎ (result ≡ b) }
{
    if a < b { a } else { b }
}

// The sum and the difference of two near numbers.
fn more(a: i64, b: i64) -> i64
    requires first { IsNear a }
    requires second { IsNear b }
    ensures { result ≡ a +ℤ b }
{
    a + b
}

fn less(a: i64, b: i64) -> i64
    requires first { IsNear a }
    requires second { IsNear b }
    ensures { result ≡ a -ℤ b }
{
    a - b
}
