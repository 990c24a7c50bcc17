//! Forward checking: a constraint is tested once all places but one have one value alone.
ghost use Rattle.std.specs.Prelude.{◌≡◌, ◌↔◌, [], IfOk, IsTrue, Some, false, true};
ghost use Rattle.mn_model.specs.Parts.{places};
ghost use Rattle.mn_closure.specs.Supports.{OtherOpen, Supported};
ghost use Rattle.mn_prop.specs.Contexts.{box_of, vars_of};
ghost use Rattle.mn_prop.specs.Footings.{no_footing};
ghost use Rattle.mn_prop.specs.Losses.{Unsupported};
ghost use Rattle.mn_prop.specs.Passes.{IsStep};
ghost use Rattle.mn_prop.specs.Posts.{ClosedUnderLeaf, HasAt, IsReadyToRun, beside};
ghost use Rattle.mn_prop.specs.Trials.{FitsForwardCheck, HasOneAt, IsLeft, OthersAlone};

use crate::context::{Ctx, Fail};
use crate::revising::revise;
use crate::runner::Scoped;
use crate::support::SupportTest;
use crate::trial::TrialAssignment;
use mn_meaning::{Assigned, holds_beside};
use mn_model::{Con, Instance, Term, Tuples};
use std::alloc::{AllocError, Global};

/// A constraint whose values are tested once all places but one have one value alone.
#[derive(Drop)]
pub struct ForwardCheck<'a> {
    con: &'a Con,
    lists: &'a [Tuples],
    terms: Vec<Term>,
    ghost placed: { terms.items ≡ places con.now },
    ghost fits: { FitsForwardCheck con.now },
}

impl<'a> ForwardCheck<'a> {
    /// The constraint, beside the tuple lists of the instance.
    pub fn build(
        alloc: Global,
        inst: &'a Instance,
        con: &'a Con,
    ) -> Result<ForwardCheck<'a>, AllocError>
        requires { FitsForwardCheck con.now }
        ensures { IfOk result (λ f. beside f.lists.now f.con.now ≡ beside inst.now.tuples con.now) }
    {
        let terms = con.places(alloc)?;
        Ok(ForwardCheck {
            con,
            lists: inst.tuples(),
            terms,
        })
    }

    /// Takes values that aren't supported, or fails.
    pub fn filter(&self, c: &mut Ctx) -> Result<(), Fail>
        requires { IsReadyToRun (vars_of c.old) (beside self.now.lists.now self.now.con.now) }
        ensures { IsStep (Unsupported (beside self.now.lists.now self.now.con.now)) (ClosedUnderLeaf (vars_of c.old) (beside self.now.lists.now self.now.con.now)) c.old c.new result }
    {
        c.lawful();
        if !self.bare() {
            return Err(Fail);
        }
        if self.terms.is_empty() {
            return Ok(());
        }
        match self.place_left(c) {
            Some(j) if c.is_single(self.terms[j]) => self.test_single(c, j),
            Some(j) => revise(self, c, j),
            None => Ok(()),
        }
    }

    // Fails where the constraint doesn't hold of the one value that each place has.
    fn test_single(&self, c: &Ctx, j: usize) -> Result<(), Fail>
        requires ready { IsReadyToRun (vars_of c.now) (beside self.now.lists.now self.now.con.now) }
        requires left { IsLeft self.now.con.now (box_of c.now) (Some j) }
        requires single { HasOneAt self.now.con.now (box_of c.now) j }
        ensures { IsStep (Unsupported (beside self.now.lists.now self.now.con.now)) (ClosedUnderLeaf (vars_of c.now) (beside self.now.lists.now self.now.con.now)) c.now c.now result }
    {
        c.lawful();
        let value = c.lo(self.terms[j]);
        if self.holds_with(c, j, value) {
            return Ok(());
        }
        Err(Fail)
    }

    // Whether the constraint holds with a value of the place, where each other place has one value alone.
    fn holds_with(&self, c: &Ctx, j: usize, a: i64) -> bool
        requires ready { IsReadyToRun (vars_of c.now) (beside self.now.lists.now self.now.con.now) }
        requires left { IsLeft self.now.con.now (box_of c.now) (Some j) }
        requires there { HasAt self.now.con.now j a (box_of c.now) }
        ensures { IsTrue result ↔ Supported self.now.lists.now self.now.con.now j a (box_of c.now) }
    {
        holds_beside(
            self.con,
            &TrialAssignment::of(c, self.terms[j], a),
            self.lists,
        )
    }

    // The place that alone may have several values, the first one where none has. None where two have, so that every value
    // of every place is supported.
    fn place_left(&self, c: &Ctx) -> Option<usize>
        requires ready { IsReadyToRun (vars_of c.now) (beside self.now.lists.now self.now.con.now) }
        requires filled { places self.now.con.now ≡ [] → ⊥ }
        ensures { IsLeft self.now.con.now (box_of c.now) result }
    {
        for (j, t) in self.terms.iter().enumerate() {
            if !c.is_single(*t) {
                let several = self.is_other_open(c, j);
                return if several { None } else { Some(j) };
            }
        }
        Some(0)
    }

    // Whether a place other than `i` has several values.
    fn is_other_open(&self, c: &Ctx, i: usize) -> bool
        requires { IsReadyToRun (vars_of c.now) (beside self.now.lists.now self.now.con.now) }
        ensures open { result ≡ true → OtherOpen self.now.con.now i (box_of c.now) }
        ensures alone { result ≡ false → OthersAlone self.now.con.now i (box_of c.now) }
    {
        for (j, t) in self.terms.iter().enumerate() {
            if j != i && !c.is_single(*t) {
                return true;
            }
        }
        false
    }
}

impl Scoped for ForwardCheck<'_> {
    ghost posted = { λ f. beside f.lists.now f.con.now };

    ghost footing = { λ f. no_footing };

    fn places(&self) -> usize {
        self.terms.len()
    }

    fn term(&self, i: usize) -> Term {
        self.terms[i]
    }
}

impl SupportTest for ForwardCheck<'_> {
    fn supported(&self, c: &Ctx, i: usize, a: i64) -> bool {
        if self.is_other_open(c, i) {
            return true;
        }
        self.holds_with(c, i, a)
    }

    fn bare(&self) -> bool {
        if !self.terms.is_empty() {
            return true;
        }
        holds_beside(self.con, &Assigned::new(&[]), self.lists)
    }

    fn by_ends(&self) -> bool {
        false
    }
}
