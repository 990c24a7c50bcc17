//! Places one of which is computed from two others: `difference` and `product`.
ghost use Rattle.std.specs.Prelude.{◌↔◌, ◌<◌, ℤ, IsTrue, length};
ghost use Rattle.mn_model.specs.Lawful.{IsNear};
ghost use Rattle.mn_model.specs.Parts.{places};
ghost use Rattle.mn_boxes.specs.Places.{PlaceHas};
ghost use Rattle.mn_closure.specs.Supports.{StandsAt, Supported};
ghost use Rattle.mn_prop.specs.Contexts.{IsNamed, box_of, vars_of};
ghost use Rattle.mn_prop.specs.Footings.{no_footing};
ghost use Rattle.mn_prop.specs.Losses.{Unsupported};
ghost use Rattle.mn_prop.specs.Passes.{IsStep};
ghost use Rattle.mn_prop.specs.Posts.{ClosedUnderLeaf, IsReadyToRun};
ghost use Rattle.mn_arith.specs.Hulls.{computed_of, value_by};
ghost use Rattle.mn_arith.specs.Spans.{GivesAbove, GivesBelow, HasPartner, IsIn, IsNearSpan, IsSpanOf};
ghost use Rattle.mn_arith.specs.Pruning.{IsPart};

use crate::span::Span;
use mn_model::{Instance, Term};
use mn_prop::{Ctx, Fail, Scoped, SupportTest, revise_all};

/// What is computed of two numbers.
#[derive(Clone, Copy, Debug, PartialEq, Eq)]
pub enum Operation {
    /// How far they are apart.
    Difference,
    /// Their product.
    Product,
}

/// A place z that is computed from x and y.
#[derive(Drop)]
pub struct Computed<'a> {
    pub(crate) operation: Operation,
    pub(crate) x: Term,
    pub(crate) y: Term,
    pub(crate) z: Term,
    pub(crate) inst: &'a Instance,
}

impl Operation {
    // Whether with `a` and some number of the span one of `z` is computed.
    fn has_partner(self, a: i64, s: Span, z: Span) -> bool
        requires near { IsNear a }
        requires own { IsNearSpan s }
        requires other { IsNearSpan z }
        ensures { IsTrue result ↔ HasPartner (value_by self) a s z }
    {
        match self {
            Operation::Difference => s.has_distance(a, z),
            Operation::Product => s.has_product(a, z),
        }
    }

    // Around the numbers of `x` with which some number of the span gives one of `z`.
    fn operands(self, x: Span, s: Span, z: Span) -> Span
        requires given { IsNearSpan x }
        requires own { IsNearSpan s }
        requires other { IsNearSpan z }
        ensures { (a : ℤ) → IsIn x a → HasPartner (value_by self) a s z → IsIn result a }
    {
        match self {
            Operation::Difference => s.around(x, z),
            Operation::Product => s.factors(x, z),
        }
    }

    // Around the numbers that numbers of two spans give.
    fn results(self, s: Span, u: Span) -> Span
        requires own { IsNearSpan s }
        requires other { IsNearSpan u }
        ensures { (a : ℤ) → GivesBelow (value_by self) a s u → GivesAbove (value_by self) a s u → IsIn result a }
    {
        match self {
            Operation::Difference => s.distances(u),
            Operation::Product => s.products(u),
        }
    }

    // Whether some numbers of two spans give one that is at most `a`.
    fn gives_below(self, a: i64, s: Span, u: Span) -> bool
        requires own { IsNearSpan s }
        requires other { IsNearSpan u }
        ensures { IsTrue result ↔ GivesBelow (value_by self) a s u }
    {
        match self {
            Operation::Difference => s.is_near(a, u),
            Operation::Product => s.has_product_to(a, u),
        }
    }

    // Whether some give one that is at least `a`.
    fn gives_above(self, a: i64, s: Span, u: Span) -> bool
        requires own { IsNearSpan s }
        requires other { IsNearSpan u }
        ensures { IsTrue result ↔ GivesAbove (value_by self) a s u }
    {
        match self {
            Operation::Difference => s.is_far(a, u),
            Operation::Product => s.has_product_from(a, u),
        }
    }

    // Whether `a` is between the least and the greatest that is given.
    fn spans(self, a: i64, s: Span, u: Span) -> bool
        requires own { IsNearSpan s }
        requires other { IsNearSpan u }
        ensures { IsTrue result ↔ (GivesBelow (value_by self) a s u × GivesAbove (value_by self) a s u) }
    {
        if !self.gives_below(a, s, u) {
            return false;
        }
        self.gives_above(a, s, u)
    }
}

// The numbers from the least value of the place to the greatest.
fn span_of(c: &Ctx, t: Term) -> Span
    requires { IsNamed (vars_of c.now) t }
    ensures { IsSpanOf (box_of c.now) t result }
{
    Span {
        lo: c.lo(t),
        hi: c.hi(t),
    }
}

impl Computed<'_> {
    /// Cuts each place to what the others allow. What is computed is cut last: its ends hang on those of the other two, which are
    /// supported still after it is cut. Where nothing was cut, the ends are tried one by one.
    pub(crate) fn filter(&self, c: &mut Ctx) -> Result<(), Fail>
        requires { IsReadyToRun (vars_of c.old) (computed_of self.now) }
        ensures { IsStep (Unsupported (computed_of self.now)) (ClosedUnderLeaf (vars_of c.old) (computed_of self.now)) c.old c.new result }
    {
        let x = span_of(c, self.x);
        let y = span_of(c, self.y);
        let z = span_of(c, self.z);
        self.cut_place(c, 0)?;
        self.cut_place(c, 1)?;
        self.cut_place(c, 2)?;
        if self.is_cut(c, x, y, z) {
            return Ok(());
        }
        revise_all(self, c)
    }

    // Whether some place doesn't reach from one end of its span to the other any more.
    fn is_cut(&self, c: &Ctx, x: Span, y: Span, z: Span) -> bool
        requires { IsReadyToRun (vars_of c.now) (computed_of self.now) }
        ensures { IsTrue result → IsSpanOf (box_of c.now) self.now.x x → IsSpanOf (box_of c.now) self.now.y y → IsSpanOf (box_of c.now) self.now.z z → ⊥ }
    {
        if !span_of(c, self.x).is(x) {
            return true;
        }
        if !span_of(c, self.y).is(y) {
            return true;
        }
        !span_of(c, self.z).is(z)
    }

    // Cuts a place to what the ends of the others allow.
    fn cut_place(&self, c: &mut Ctx, i: usize) -> Result<(), Fail>
        requires ready { IsReadyToRun (vars_of c.old) (computed_of self.now) }
        requires place { i < length (places (computed_of self.now).con) }
        ensures { IsPart (computed_of self.now) (λ box. Unit {0}) c.old c.new result }
    {
        let bounds = self.bounds_at(c, i);
        let t = self.term(i);
        c.set_lo(t, bounds.lo)?;
        c.set_hi(t, bounds.hi)
    }

    // Around the supported values of a place.
    fn bounds_at(&self, c: &Ctx, i: usize) -> Span
        requires ready { IsReadyToRun (vars_of c.now) (computed_of self.now) }
        requires place { i < length (places (computed_of self.now).con) }
        ensures { (t : Term) (a : ℤ) → StandsAt (computed_of self.now).con i t → PlaceHas (box_of c.now) t a → Supported (computed_of self.now).lists (computed_of self.now).con i a (box_of c.now) → IsIn result a }
    {
        c.lawful();
        let x = span_of(c, self.x);
        let y = span_of(c, self.y);
        let z = span_of(c, self.z);
        if i == 0 {
            return self.operation.operands(x, y, z);
        }
        if i == 1 {
            return self.operation.operands(y, x, z);
        }
        self.operation.results(x, y)
    }
}

impl Scoped for Computed<'_> {
    ghost posted = { computed_of };

    ghost footing = { λ _. no_footing };

    fn places(&self) -> usize {
        3
    }

    fn term(&self, i: usize) -> Term {
        if i == 0 {
            return self.x;
        }
        if i == 1 { self.y } else { self.z }
    }
}

impl SupportTest for Computed<'_> {
    fn supported(&self, c: &Ctx, i: usize, a: i64) -> bool {
        c.lawful();
        let x = span_of(c, self.x);
        let y = span_of(c, self.y);
        let z = span_of(c, self.z);
        if i == 0 {
            return self.operation.has_partner(a, y, z);
        }
        if i == 1 {
            return self.operation.has_partner(a, x, z);
        }
        self.operation.spans(a, x, y)
    }

    fn bare(&self) -> bool {
        true
    }

    fn by_ends(&self) -> bool {
        true
    }
}
