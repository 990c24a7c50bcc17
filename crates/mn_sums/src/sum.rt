//! A sum that is at most a bound.
ghost use Rattle.std.specs.Prelude.{◌≡◌, ◌+ℤ◌, ◌-ℤ◌, ◌≤ℤ◌, IfOk, false, map, pos, true};
ghost use Rattle.mn_model.specs.Parts.{places};
ghost use Rattle.mn_boxes.specs.Boxes.{declared_variables};
ghost use Rattle.mn_prop.specs.Contexts.{box_of, vars_of};
ghost use Rattle.mn_prop.specs.Footings.{no_footing};
ghost use Rattle.mn_prop.specs.Losses.{Unsupported};
ghost use Rattle.mn_prop.specs.Passes.{IsStep};
ghost use Rattle.mn_prop.specs.Posts.{ClosedUnderLeaf, IsReadyToRun, beside};
ghost use Rattle.mn_sums.specs.Parts.{IsMeasured, least_total, term_of};
ghost use Rattle.mn_sums.specs.Sums.{bound_of, is_sum, parts_of};

use crate::build::{bound_of, parts_of};
use crate::part::Part;
use mn_model::{Con, Instance, Term};
use mn_prop::{Ctx, Fail, Runner, Scoped};
use std::alloc::{AllocError, Global};

/// A constraint that what its places add together is at most a bound.
#[derive(Drop)]
pub struct Sum<'a> {
    con: &'a Con,
    inst: &'a Instance,
    parts: Vec<Part>,
    bound: i64,
    ghost form: { is_sum con.now ≡ true },
    ghost made: { parts.items ≡ parts_of con.now },
    ghost placed: { map term_of parts.items ≡ places con.now },
    ghost bounded: { bound ≡ bound_of con.now },
}

/// The least that all places can add together, and how far what one of them adds is at most from its least.
#[derive(Clone, Copy)]
pub(crate) struct Measure {
    least: i128,
    widest: i64,
}

impl<'a> Sum<'a> {
    /// What narrows the constraint, beside the tuple lists of the instance.
    pub fn build(alloc: Global, inst: &'a Instance, con: &'a Con) -> Result<Sum<'a>, AllocError>
        requires form { is_sum con.now ≡ true }
        requires ready { IsReadyToRun (declared_variables inst.now.decls) (beside inst.now.tuples con.now) }
        ensures { IfOk result (λ s. beside s.inst.now.tuples s.con.now ≡ beside inst.now.tuples con.now) }
    {
        let parts = parts_of(alloc, con)?;
        let bound = bound_of(con);
        Ok(Sum {
            con,
            inst,
            parts,
            bound,
        })
    }

    // Takes values that aren't supported, or fails.
    fn filter(&self, c: &mut Ctx) -> Result<(), Fail>
        requires { IsReadyToRun (vars_of c.old) (beside self.now.inst.now.tuples self.now.con.now) }
        ensures { IsStep (Unsupported (beside self.now.inst.now.tuples self.now.con.now)) (ClosedUnderLeaf (vars_of c.old) (beside self.now.inst.now.tuples self.now.con.now)) c.old c.new result }
    {
        c.lawful();
        let measure = self.measure(c);
        let slack = i128::from(self.bound) - measure.least;
        if slack < 0 {
            return Err(Fail);
        }
        if i128::from(measure.widest) <= slack {
            return Ok(());
        }
        self.cut_all(c, slack as i64)
    }

    // What the places add at least, and how far one may be from it.
    fn measure(&self, c: &Ctx) -> Measure
        requires { IsReadyToRun (vars_of c.now) (beside self.now.inst.now.tuples self.now.con.now) }
        ensures { IsMeasured (box_of c.now) self.now.parts.items result.least result.widest }
    {
        c.lawful();
        let mut least: i128 = 0;
        let mut widest = 0;
        for p in self.parts.as_slice() {
            let span = p.span(c);
            least += i128::from(span.low);
            widest = greater(widest, span.high - span.low);
        }
        Measure { least, widest }
    }

    // Takes from each place the values that add too much.
    fn cut_all(&self, c: &mut Ctx, slack: i64) -> Result<(), Fail>
        requires ready { IsReadyToRun (vars_of c.old) (beside self.now.inst.now.tuples self.now.con.now) }
        requires slack { slack ≡ self.now.bound -ℤ least_total (box_of c.old) self.now.parts.items }
        requires some { pos 0 ≤ℤ slack }
        ensures { IsStep (Unsupported (beside self.now.inst.now.tuples self.now.con.now)) (ClosedUnderLeaf (vars_of c.old) (beside self.now.inst.now.tuples self.now.con.now)) c.old c.new result }
    {
        c.lawful();
        for p in self.parts.as_slice() {
            p.cut(c, slack)?;
        }
        Ok(())
    }
}

fn greater(a: i64, b: i64) -> i64
    ensures first { a ≤ℤ result }
    ensures second { b ≤ℤ result }
{
    if a < b { b } else { a }
}

impl Scoped for Sum<'_> {
    ghost posted = { λ s. beside s.inst.now.tuples s.con.now };

    ghost footing = { λ s. no_footing };

    fn places(&self) -> usize {
        self.parts.len()
    }

    fn term(&self, i: usize) -> Term {
        self.parts[i].term()
    }
}

impl Runner for Sum<'_> {
    ghost rests = { λ s. false };

    // A cut of a place may reach another place that names the same variable.
    fn settles(&self) -> bool {
        false
    }

    fn pass(&mut self, c: &mut Ctx) -> Result<(), Fail> {
        self.filter(c)
    }
}
