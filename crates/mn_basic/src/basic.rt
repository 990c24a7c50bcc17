//! What narrows one constraint.
ghost use Rattle.std.specs.Prelude.{◌≡◌, IfOk, OnOk, true};
ghost use Rattle.mn_prop.specs.Contexts.{box_of, vars_of};
ghost use Rattle.mn_prop.specs.Footings.{no_footing};
ghost use Rattle.mn_prop.specs.Losses.{Unsupported};
ghost use Rattle.mn_prop.specs.Passes.{IsStep};
ghost use Rattle.mn_prop.specs.Posts.{ClosedUnderLeaf, IsReadyToRun, beside};
ghost use Rattle.mn_basic.specs.Basics.{is_basic, posted_of, rests_of};
ghost use Rattle.mn_basic.specs.Binaries.{differ_between, order_of};
ghost use Rattle.mn_basic.specs.Ties.{tie_of};
ghost use Rattle.mn_basic.specs.Unaries.{literal_of};

use crate::differ::Differ;
use crate::ineq::{Ineq, Order};
use crate::numbers::Numbers;
use crate::tie::{Tie, Tied};
use crate::unary::Unary;
use mn_model::{Con, Instance, Term};
use mn_prop::{Ctx, Fail, ForwardCheck, Runner, Scoped};
use std::alloc::{AllocError, Global};

/// What narrows one constraint, of any form.
#[derive(Drop)]
pub enum Basic<'a> {
    /// Two places that differ.
    Differ(Differ<'a>),
    /// Two places in order.
    Ineq(Ineq<'a>),
    /// Two places one of which tells the other.
    Tied(Tied<'a>),
    /// One place, by its numbers.
    Unary(Unary<'a>),
    /// Any other constraint, checked forward.
    Forward(ForwardCheck<'a>),
}

impl<'a> Basic<'a> {
    /// What narrows the constraint, beside the tuple lists of the instance.
    pub fn build(alloc: Global, inst: &'a Instance, con: &'a Con) -> Result<Basic<'a>, AllocError>
        requires { is_basic con.now ≡ true }
        ensures { IfOk result (λ b. posted_of b ≡ beside inst.now.tuples con.now) }
    {
        match con {
            Con::Eq(x, y) => Ok(tied(inst, Tie::Equal, *x, *y)),
            Con::Minuseq(x, y) => Ok(tied(inst, Tie::Opposite, *x, *y)),
            Con::Abs(x, y) => Ok(tied(inst, Tie::Absolute, *x, *y)),
            Con::Diseq(x, y) => Ok(differ(inst, *x, *y)),
            Con::Ineq(x, y, k) => Ok(ordered(inst, Order::AtMost(*k), *x, *y)),
            Con::Watchless(x, y) => Ok(ordered(inst, Order::Below, *x, *y)),
            Con::WLiteral(x, k) => Ok(unary(inst, Numbers::Is(*k), *x)),
            Con::WNotliteral(x, k) => Ok(unary(inst, Numbers::IsNot(*k), *x)),
            Con::WInset(x, ks) => Ok(unary(inst, Numbers::Among(ks), *x)),
            Con::WNotinset(x, ks) => Ok(unary(inst, Numbers::NotAmong(ks), *x)),
            Con::WInrange(x, lo, hi) => Ok(unary(inst, Numbers::Between(*lo, *hi), *x)),
            Con::WNotinrange(x, lo, hi) => Ok(unary(inst, Numbers::NotBetween(*lo, *hi), *x)),
            Con::WInintervalset(x, ends) => Ok(unary(inst, Numbers::Within(ends), *x)),
            _ => Ok(Basic::Forward(ForwardCheck::build(alloc, inst, con)?)),
        }
    }
}

// What narrows each family.
fn differ<'a>(inst: &'a Instance, x: Term, y: Term) -> Basic<'a>
    ensures { posted_of result ≡ beside inst.now.tuples (differ_between x y) }
{
    Basic::Differ(Differ { x, y, inst })
}

fn ordered<'a>(inst: &'a Instance, order: Order, x: Term, y: Term) -> Basic<'a>
    ensures { posted_of result ≡ beside inst.now.tuples (order_of order x y) }
{
    Basic::Ineq(Ineq { order, x, y, inst })
}

fn tied<'a>(inst: &'a Instance, tie: Tie, x: Term, y: Term) -> Basic<'a>
    ensures { posted_of result ≡ beside inst.now.tuples (tie_of tie x y) }
{
    Basic::Tied(Tied { tie, x, y, inst })
}

fn unary<'a>(inst: &'a Instance, numbers: Numbers<'a>, x: Term) -> Basic<'a>
    ensures { posted_of result ≡ beside inst.now.tuples (literal_of numbers.entry x) }
{
    Basic::Unary(Unary { numbers, x, inst })
}

impl Basic<'_> {
    // Takes values that aren't supported, or fails.
    fn filter(&self, c: &mut Ctx) -> Result<(), Fail>
        requires { IsReadyToRun (vars_of c.old) (posted_of self.now) }
        ensures step { IsStep (Unsupported (posted_of self.now)) (ClosedUnderLeaf (vars_of c.old) (posted_of self.now)) c.old c.new result }
        ensures settled { OnOk result (rests_of self.now ≡ true → ClosedUnderLeaf (vars_of c.old) (posted_of self.now) (box_of c.new)) }
    {
        match self {
            Basic::Differ(d) => d.filter(c),
            Basic::Ineq(i) => i.filter(c),
            Basic::Tied(t) => t.filter(c),
            Basic::Unary(u) => u.filter(c),
            Basic::Forward(f) => f.filter(c),
        }
    }
}

impl Scoped for Basic<'_> {
    ghost posted = { posted_of };

    ghost footing = { λ b. no_footing };

    fn places(&self) -> usize {
        match self {
            Basic::Differ(d) => d.places(),
            Basic::Ineq(i) => i.places(),
            Basic::Tied(t) => t.places(),
            Basic::Unary(u) => u.places(),
            Basic::Forward(f) => f.places(),
        }
    }

    fn term(&self, i: usize) -> Term {
        match self {
            Basic::Differ(d) => d.term(i),
            Basic::Ineq(o) => o.term(i),
            Basic::Tied(t) => t.term(i),
            Basic::Unary(u) => u.term(i),
            Basic::Forward(f) => f.term(i),
        }
    }
}

impl Runner for Basic<'_> {
    ghost rests = { rests_of };

    fn settles(&self) -> bool {
        match self {
            Basic::Differ(_) | Basic::Ineq(_) => true,
            Basic::Unary(u) => u.numbers.in_one_change(),
            Basic::Tied(_) | Basic::Forward(_) => false,
        }
    }

    fn pass(&mut self, c: &mut Ctx) -> Result<(), Fail> {
        self.filter(c)
    }
}
