//! What one place adds to a sum.
ghost use Rattle.std.specs.Prelude.{◌≡◌, ◌↔◌, ◌*ℤ◌, ◌+ℤ◌, ◌≤ℤ◌, ◌<ℤ◌, ℤ, pos};
ghost use Rattle.mn_model.specs.Lawful.{IsNear};
ghost use Rattle.mn_prop.specs.Contexts.{box_of, vars_of};
ghost use Rattle.mn_prop.specs.Passes.{IsStep};
ghost use Rattle.mn_sums.specs.Parts.{AllFit, IsPartOf, IsSmall, IsSpan, TooMuch, least_cost, term_of};
ghost use Rattle.mn_sums.specs.declared.part.Part.TheVariants.{Times, Is};

use mn_model::Term;
use mn_prop::{Ctx, Fail};

/// What a place adds to a sum.
#[derive(Clone, Copy, Debug, PartialEq, Eq)]
pub enum Part {
    /// Its value times a weight.
    Times(i64, Term),
    /// -1 where its value is the number, and 0 where it isn't.
    Is(i64, Term),
}

/// The least that the values of a place add, and a number that is at least the greatest.
#[derive(Clone, Copy)]
pub(crate) struct Span {
    pub(crate) low: i64,
    pub(crate) high: i64,
}

impl Part {
    /// The term at the place.
    pub(crate) fn term(self) -> Term
        ensures { result ≡ term_of self }
    {
        match self {
            Part::Times(_, t) | Part::Is(_, t) => t,
        }
    }

    /// What the values of the place add.
    pub(crate) fn span(self, c: &Ctx) -> Span
        requires { IsPartOf (vars_of c.now) self }
        ensures { IsSpan (box_of c.now) self result.low result.high }
    {
        match self {
            Part::Times(w, t) => weighted_span(c, w, t),
            Part::Is(k, t) => number_span(c, k, t),
        }
    }

    /// Takes the values that add more than the least of the place and the slack together.
    pub(crate) fn cut(self, c: &mut Ctx, slack: i64) -> Result<(), Fail>
        requires part { IsPartOf (vars_of c.old) self }
        requires slack { pos 0 ≤ℤ slack }
        ensures { IsStep (TooMuch self (least_cost (box_of c.old) self +ℤ slack)) (AllFit self (least_cost (box_of c.old) self +ℤ slack)) c.old c.new result }
    {
        let span = self.span(c);
        if span.high - span.low <= slack {
            return Ok(());
        }
        match self {
            Part::Times(w, t) => cut_weighted(c, w, t, slack),
            Part::Is(k, t) => cut_number(c, k, t, slack),
        }
    }
}

// What the values of a place with a weight add.
fn weighted_span(c: &Ctx, w: i64, t: Term) -> Span
    requires { IsPartOf (vars_of c.now) (Times w t) }
    ensures { IsSpan (box_of c.now) (Times w t) result.low result.high }
{
    c.lawful();
    let lo = product(w, c.lo(t));
    let hi = product(w, c.hi(t));
    if w < 0 {
        Span { low: hi, high: lo }
    } else {
        Span { low: lo, high: hi }
    }
}

// What those of a place add that is compared with a number.
fn number_span(c: &Ctx, k: i64, t: Term) -> Span
    requires { IsPartOf (vars_of c.now) (Is k t) }
    ensures { IsSpan (box_of c.now) (Is k t) result.low result.high }
{
    if c.has(t, k) {
        Span { low: -1, high: 0 }
    } else {
        Span { low: 0, high: 0 }
    }
}

// Takes the values of a place with a weight that add too much.
fn cut_weighted(c: &mut Ctx, w: i64, t: Term, slack: i64) -> Result<(), Fail>
    requires part { IsPartOf (vars_of c.old) (Times w t) }
    requires slack { pos 0 ≤ℤ slack }
    requires small { slack ≤ℤ pos 4000000000000000000 }
    ensures { IsStep (TooMuch (Times w t) (least_cost (box_of c.old) (Times w t) +ℤ slack)) (AllFit (Times w t) (least_cost (box_of c.old) (Times w t) +ℤ slack)) c.old c.new result }
{
    c.lawful();
    if w < 0 {
        let least = least_within(w, c.hi(t), slack);
        return c.set_lo(t, least);
    }
    if w > 0 {
        let most = most_within(w, c.lo(t), slack);
        return c.set_hi(t, most);
    }
    Ok(())
}

// Takes the other values than the number, where the place has to have it.
fn cut_number(c: &mut Ctx, k: i64, t: Term, slack: i64) -> Result<(), Fail>
    requires part { IsPartOf (vars_of c.old) (Is k t) }
    requires slack { pos 0 ≤ℤ slack }
    ensures { IsStep (TooMuch (Is k t) (least_cost (box_of c.old) (Is k t) +ℤ slack)) (AllFit (Is k t) (least_cost (box_of c.old) (Is k t) +ℤ slack)) c.old c.new result }
{
    if slack > 0 {
        return Ok(());
    }
    if c.has(t, k) {
        return c.assign(t, k);
    }
    Ok(())
}

// The greatest value that adds no more than the least one and the slack, where the weight is above 0.
fn most_within(w: i64, lo: i64, slack: i64) -> i64
    requires above { pos 0 <ℤ w }
    requires near { IsNear lo }
    requires slack { pos 0 ≤ℤ slack }
    requires small { slack ≤ℤ pos 4000000000000000000 }
    ensures { (a : ℤ) → a ≤ℤ result ↔ (w *ℤ a) ≤ℤ ((w *ℤ lo) +ℤ slack) }
{
    lo + quotient(slack, w)
}

// The least such value, where the weight is below 0.
fn least_within(w: i64, hi: i64, slack: i64) -> i64
    requires below { w <ℤ pos 0 }
    requires weight { IsNear w }
    requires near { IsNear hi }
    requires slack { pos 0 ≤ℤ slack }
    requires small { slack ≤ℤ pos 4000000000000000000 }
    ensures { (a : ℤ) → result ≤ℤ a ↔ (w *ℤ a) ≤ℤ ((w *ℤ hi) +ℤ slack) }
{
    hi - quotient(slack, -w)
}

// The product, which an i64 has room for.
fn product(a: i64, b: i64) -> i64
    requires weight { IsNear a }
    requires value { IsNear b }
    ensures is { result ≡ a *ℤ b }
    ensures small { IsSmall result }
{
    a * b
}

// How often a number above 0 goes into one that isn't below 0.
fn quotient(a: i64, b: i64) -> i64
    requires above { pos 0 <ℤ b }
    requires whole { pos 0 ≤ℤ a }
    ensures is { (d : ℤ) → d ≤ℤ result ↔ (b *ℤ d) ≤ℤ a }
    ensures low { pos 0 ≤ℤ result }
    ensures high { result ≤ℤ a }
{
    a.div_euclid(b)
}
