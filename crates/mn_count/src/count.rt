//! What narrows a constraint that counts equal values.
ghost use Rattle.std.specs.Prelude.{◌≡◌, IfOk, OnOk, true};
ghost use Rattle.mn_model.specs.declared.constraint.Con.TheVariants as con;
ghost use Rattle.mn_prop.specs.Contexts.{box_of, vars_of};
ghost use Rattle.mn_prop.specs.Footings.{no_footing};
ghost use Rattle.mn_prop.specs.Losses.{Unsupported};
ghost use Rattle.mn_prop.specs.Passes.{IsStep};
ghost use Rattle.mn_prop.specs.Posts.{ClosedUnderLeaf, IsReadyToRun, beside};
ghost use Rattle.mn_count.specs.Counts.{IsCounting, posted_of, rests_of};

use crate::alldiff::Alldiff;
use crate::dense::Dense;
use crate::hamming::Hamming;
use crate::occurrence::{Amount, Occurrence};
use mn_model::{Con, Instance, Term, Terms};
use mn_prop::{Ctx, Fail, ForwardCheck, Runner, Scoped};
use std::alloc::{AllocError, Global};

/// What narrows a constraint that counts equal values.
#[derive(Drop)]
pub enum Count<'a> {
    /// Places that all differ.
    Differ(Alldiff<'a>),
    /// The same, where the values stand close together.
    DifferDense(Dense<'a>),
    /// So many entries that are a value.
    Often(Occurrence<'a>),
    /// Two vectors that differ at so many places.
    Distant(Hamming<'a>),
    /// At most so many different values.
    Few(ForwardCheck<'a>),
}

impl<'a> Count<'a> {
    /// What narrows the constraint, beside the tuple lists of the instance.
    pub fn build(alloc: Global, inst: &'a Instance, con: &'a Con) -> Result<Count<'a>, AllocError>
        requires { IsCounting con.now }
        ensures { IfOk result (λ k. posted_of k ≡ beside inst.now.tuples con.now) }
    {
        match con {
            Con::Alldiff(v) => Count::differ(alloc, inst, v),
            Con::Occurrence(v, k, x) => Ok(Count::Often(Occurrence::new(
                inst,
                v,
                *k,
                Amount::Is(*x),
            ))),
            Con::Occurrenceleq(v, k, most) => Ok(Count::Often(Occurrence::new(
                inst,
                v,
                *k,
                Amount::AtMost(*most),
            ))),
            Con::Occurrencegeq(v, k, least) => Ok(Count::Often(Occurrence::new(
                inst,
                v,
                *k,
                Amount::AtLeast(*least),
            ))),
            Con::Hamming(v, w, least) => Ok(Count::Distant(Hamming {
                v,
                w,
                least: *least,
                inst,
            })),
            Con::Nvalueleq(_, _) => Ok(Count::Few(ForwardCheck::build(alloc, inst, con)?)),
            _ => unreachable!(),
        }
    }

    // What narrows places that all differ.
    fn differ(alloc: Global, inst: &'a Instance, v: &'a Terms) -> Result<Count<'a>, AllocError>
        ensures { IfOk result (λ k. posted_of k ≡ beside inst.now.tuples (con.Alldiff v.now)) }
    {
        match Dense::build(alloc, Alldiff { v, inst })? {
            Some(d) => Ok(Count::DifferDense(d)),
            None => Ok(Count::Differ(Alldiff { v, inst })),
        }
    }

    // Takes values that aren't supported, or fails.
    fn filter(&mut self, c: &mut Ctx) -> Result<(), Fail>
        requires { IsReadyToRun (vars_of c.old) (posted_of self.old) }
        ensures posted { posted_of self.new ≡ posted_of self.old }
        ensures rests { rests_of self.new ≡ rests_of self.old }
        ensures step { IsStep (Unsupported (posted_of self.old)) (ClosedUnderLeaf (vars_of c.old) (posted_of self.old)) c.old c.new result }
        ensures settled { OnOk result (rests_of self.old ≡ true → ClosedUnderLeaf (vars_of c.old) (posted_of self.old) (box_of c.new)) }
    {
        match self {
            Count::Differ(d) => d.filter(c),
            Count::DifferDense(d) => d.filter(c),
            Count::Often(o) => o.filter(c),
            Count::Distant(h) => h.filter(c),
            Count::Few(f) => f.filter(c),
        }
    }
}

impl Scoped for Count<'_> {
    ghost posted = { posted_of };

    ghost footing = { λ _. no_footing };

    fn places(&self) -> usize {
        match self {
            Count::Differ(d) => d.places(),
            Count::DifferDense(d) => d.places(),
            Count::Often(o) => o.places(),
            Count::Distant(h) => h.places(),
            Count::Few(f) => f.places(),
        }
    }

    fn term(&self, i: usize) -> Term {
        match self {
            Count::Differ(d) => d.term(i),
            Count::DifferDense(d) => d.term(i),
            Count::Often(o) => o.term(i),
            Count::Distant(h) => h.term(i),
            Count::Few(f) => f.term(i),
        }
    }
}

impl Runner for Count<'_> {
    ghost rests = { rests_of };

    fn settles(&self) -> bool {
        match self {
            Count::Differ(_)
            | Count::DifferDense(_)
            | Count::Often(_)
            | Count::Distant(_)
            | Count::Few(_) => false,
        }
    }

    fn pass(&mut self, c: &mut Ctx) -> Result<(), Fail> {
        self.filter(c)
    }
}
