//! The values that places have, as a set.
ghost use Rattle.std.specs.Prelude.{◌≤ℤ◌, ◌↔◌, ◌⊎◌, ◌≡◌, ℤ, IsTrue, length};
ghost use Rattle.mn_model.specs.Domain.{IsValue};
ghost use Rattle.mn_model.specs.Lawful.{IsLawfulTerm};
ghost use Rattle.mn_boxes.specs.Boxes.{declared_variables};
ghost use Rattle.mn_boxes.specs.Places.{PlaceHas};
ghost use Rattle.mn_boxes.specs.Values.{IsCovered, members};
ghost use Rattle.mn_closure.specs.Ready.{declared_sets};
ghost use Rattle.mn_prop.specs.Contexts.{IsNamed, box_of, vars_of};
ghost use Rattle.mn_prop.specs.Posts.{IsReadyToRun};
ghost use Rattle.mn_arith.specs.Extremes.{extreme_of};

use crate::extreme::Extreme;
use mn_boxes::ValueSet;
use mn_model::{PLACES, Term};
use mn_prop::Ctx;
use std::alloc::{AllocError, Global};

/// How many values a set may have room for, for each place.
const EACH: i64 = 64;

/// And how many beside those.
const BESIDE: i64 = 4096;

/// A least and a greatest value.
#[derive(Clone, Copy)]
pub(crate) struct Ends {
    pub(crate) lo: i64,
    pub(crate) hi: i64,
    ghost low: { IsValue lo },
    ghost high: { IsValue hi },
    ghost order: { lo ≤ℤ hi },
}

/// The values that places have, all between two ends. The set is filled anew at each pass.
#[derive(Drop)]
pub struct Found {
    lo: i64,
    hi: i64,
    set: ValueSet,
    ghost low: { IsCovered set lo },
    ghost high: { IsCovered set hi },
}

impl Found {
    ghost use Rattle.mn_arith.specs.Finds.{IsFoundIn, Spans};

    /// A set with room for what is declared, if it isn't too much.
    pub(crate) fn build(alloc: Global, of: &Extreme) -> Result<Option<Found>, AllocError>
        requires { IsReadyToRun (declared_variables of.now.inst.now.decls) (extreme_of of.now) }
    {
        let places = of.terms.len();
        if places > PLACES as usize {
            return Ok(None);
        }
        match of.declared_ends(EACH * places as i64 + BESIDE) {
            Some(ends) => Ok(Some(Found::between(alloc, ends)?)),
            None => Ok(None),
        }
    }

    // No values.
    fn between(alloc: Global, ends: Ends) -> Result<Found, AllocError> {
        let set = ValueSet::new(alloc, ends.lo, ends.hi)?;
        Ok(Found {
            lo: ends.lo,
            hi: ends.hi,
            set,
        })
    }

    /// The values.
    pub(crate) fn set(&self) -> &ValueSet
        ensures { result.now ≡ self.now.set }
    {
        &self.set
    }

    /// Fills the set with the values of the places, but of x. False where there is no room for them.
    pub(crate) fn gather_all(&mut self, of: &Extreme, c: &Ctx) -> bool
        requires { IsReadyToRun (vars_of c.now) (extreme_of of.now) }
        ensures { IsTrue result → IsFoundIn of.now.terms.now (length of.now.terms.now) (box_of c.now) self.new.set }
    {
        self.set.clear();
        for t in of.terms.as_slice() {
            if !self.gather(c, *t) {
                return false;
            }
        }
        true
    }

    // Puts the values of one place into the set. False where there is no room for them.
    fn gather(&mut self, c: &Ctx, t: Term) -> bool
        requires lawful { IsLawfulTerm (declared_sets (vars_of c.now)) t }
        requires named { IsNamed (vars_of c.now) t }
        ensures { IsTrue result → (a : ℤ) → IsTrue (members self.new.set a) ↔ (IsTrue (members self.old.set a) ⊎ PlaceHas (box_of c.now) t a) }
    {
        if !self.spans(c, t) {
            return false;
        }
        c.gather(t, &mut self.set);
        true
    }

    // Whether all values of the place are between the ends.
    fn spans(&self, c: &Ctx, t: Term) -> bool
        requires { IsNamed (vars_of c.now) t }
        ensures { IsTrue result → Spans (box_of c.now) self.now.lo self.now.hi t }
    {
        self.lo <= c.lo(t) && c.hi(t) <= self.hi
    }
}
