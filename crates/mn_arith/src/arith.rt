//! What narrows one constraint of arithmetic.
ghost use Rattle.std.specs.Prelude.{◌≡◌, IfOk, false, true};
ghost use Rattle.mn_boxes.specs.Boxes.{declared_variables};
ghost use Rattle.mn_prop.specs.Contexts.{vars_of};
ghost use Rattle.mn_prop.specs.Footings.{no_footing};
ghost use Rattle.mn_prop.specs.Losses.{Unsupported};
ghost use Rattle.mn_prop.specs.Passes.{IsStep};
ghost use Rattle.mn_prop.specs.Posts.{ClosedUnderLeaf, IsReadyToRun, beside};
ghost use Rattle.mn_arith.specs.Ariths.{is_arithmetic, posted_of};
ghost use Rattle.mn_arith.specs.Extremes.{extreme_con};
ghost use Rattle.mn_arith.specs.Hulls.{computed_con};

use crate::extremum::Extremum;
use crate::hull::{Computed, Operation};
use mn_model::{Con, Instance, Term, Terms};
use mn_prop::{Ctx, Fail, ForwardCheck, Runner, Scoped};
use std::alloc::{AllocError, Global};

/// What narrows one constraint of arithmetic.
#[derive(Drop)]
pub enum Arith<'a> {
    /// A place that is the greatest or the least of others.
    Extremum(Extremum<'a>),
    /// A place that is computed from two others.
    Computed(Computed<'a>),
    /// A quotient or a remainder, checked forward.
    Forward(ForwardCheck<'a>),
}

impl<'a> Arith<'a> {
    /// What narrows the constraint, beside the tuple lists of the instance.
    pub fn build(alloc: Global, inst: &'a Instance, con: &'a Con) -> Result<Arith<'a>, AllocError>
        requires form { is_arithmetic con.now ≡ true }
        requires ready { IsReadyToRun (declared_variables inst.now.decls) (beside inst.now.tuples con.now) }
        ensures { IfOk result (λ k. posted_of k ≡ beside inst.now.tuples con.now) }
    {
        match con {
            Con::Difference(x, y, z) => Ok(computed(inst, Operation::Difference, *x, *y, *z)),
            Con::Product(x, y, z) => Ok(computed(inst, Operation::Product, *x, *y, *z)),
            Con::Max(v, x) => extreme(alloc, inst, true, v, *x),
            Con::Min(v, x) => extreme(alloc, inst, false, v, *x),
            _ => Ok(Arith::Forward(ForwardCheck::build(alloc, inst, con)?)),
        }
    }
}

// What narrows each family.
fn extreme<'a>(
    alloc: Global,
    inst: &'a Instance,
    greatest: bool,
    terms: &'a Terms,
    x: Term,
) -> Result<Arith<'a>, AllocError>
    requires { IsReadyToRun (declared_variables inst.now.decls) (beside inst.now.tuples (extreme_con greatest terms.now x)) }
    ensures { IfOk result (λ k. posted_of k ≡ beside inst.now.tuples (extreme_con greatest terms.now x)) }
{
    Ok(Arith::Extremum(Extremum::build(alloc, inst, greatest, terms, x)?))
}

fn computed<'a>(inst: &'a Instance, operation: Operation, x: Term, y: Term, z: Term) -> Arith<'a>
    ensures { posted_of result ≡ beside inst.now.tuples (computed_con operation x y z) }
{
    Arith::Computed(Computed {
        operation,
        x,
        y,
        z,
        inst,
    })
}

impl Arith<'_> {
    // Takes values that aren't supported, or fails.
    fn filter(&mut self, c: &mut Ctx) -> Result<(), Fail>
        requires { IsReadyToRun (vars_of c.old) (posted_of self.old) }
        ensures posted { posted_of self.new ≡ posted_of self.old }
        ensures step { IsStep (Unsupported (posted_of self.old)) (ClosedUnderLeaf (vars_of c.old) (posted_of self.old)) c.old c.new result }
    {
        match self {
            Arith::Extremum(e) => e.filter(c),
            Arith::Computed(k) => k.filter(c),
            Arith::Forward(f) => f.filter(c),
        }
    }
}

impl Scoped for Arith<'_> {
    ghost posted = { posted_of };

    ghost footing = { λ _. no_footing };

    fn places(&self) -> usize {
        match self {
            Arith::Extremum(e) => e.of.places(),
            Arith::Computed(k) => k.places(),
            Arith::Forward(f) => f.places(),
        }
    }

    fn term(&self, i: usize) -> Term {
        match self {
            Arith::Extremum(e) => e.of.term(i),
            Arith::Computed(k) => k.term(i),
            Arith::Forward(f) => f.term(i),
        }
    }
}

impl Runner for Arith<'_> {
    ghost rests = { λ k. false };

    fn settles(&self) -> bool {
        false
    }

    fn pass(&mut self, c: &mut Ctx) -> Result<(), Fail> {
        self.filter(c)
    }
}
