//! Sets of the values of a stretch.
ghost use Rattle.std.specs.Prelude.{◌<◌, length, ◌≡◌, ◌↔◌, ◌⊎◌, ◌||◌, ◌≤ℤ◌, ℤ, IsTrue, false};
ghost use Rattle.std.specs.Ordering.{int_eq};
ghost use Rattle.mn_model.specs.Domain.{Has, IsValue};
ghost use Rattle.mn_model.specs.Variable.{number_of};
ghost use Rattle.mn_boxes.specs.Boxes.{set_of};
ghost use Rattle.mn_model.specs.Lawful.{IsLawfulTerm};
ghost use Rattle.mn_boxes.specs.Places.{PlaceHas};
ghost use Rattle.mn_boxes.specs.Values.{IsCovered, members};
ghost use Rattle.mn_closure.specs.Ready.{declared_sets};
ghost use Rattle.mn_prop.specs.Contexts.{IsNamed, box_of, vars_of};
ghost use Rattle.mn_element.specs.Stretches.{HasAllOf, IsBetween, IsNextBefore, Spans};

use mn_boxes::ValueSet;
use mn_domains::Doms;
use mn_model::{Term, VarId};
use mn_prop::Ctx;
use std::alloc::{AllocError, Global};

/// A least and a greatest value.
#[derive(Clone, Copy)]
pub(crate) struct Ends {
    pub(crate) lo: i64,
    pub(crate) hi: i64,
    ghost low: { IsValue lo },
    ghost high: { IsValue hi },
    ghost order: { lo ≤ℤ hi },
}

/// A set of values between two ends. Only `new` takes memory.
#[derive(Drop)]
pub(crate) struct Stretch {
    lo: i64,
    hi: i64,
    set: ValueSet,
    ghost value: { IsValue lo },
    ghost order: { lo ≤ℤ hi },
    ghost low: { IsCovered set lo },
    ghost high: { IsCovered set hi },
}

impl Stretch {
    ghost use Rattle.mn_element.specs.Gathers.{HasEndsOf};

    /// No values.
    pub(crate) fn new(alloc: Global, ends: Ends) -> Result<Stretch, AllocError> {
        let set = ValueSet::new(alloc, ends.lo, ends.hi)?;
        Ok(Stretch {
            lo: ends.lo,
            hi: ends.hi,
            set,
        })
    }

    /// The values.
    pub(crate) fn set(&self) -> &ValueSet
        ensures { result.now ≡ self.now.set }
    {
        &self.set
    }

    /// Takes all values out.
    pub(crate) fn clear(&mut self)
        ensures ends { HasEndsOf self.old self.new }
        ensures none { (a : ℤ) → members self.new.set a ≡ false }
    {
        self.set.clear();
    }

    /// Whether all values of the place are between the ends.
    pub(crate) fn spans(&self, c: &Ctx, t: Term) -> bool
        requires { IsNamed (vars_of c.now) t }
        ensures { IsTrue result → Spans (box_of c.now) self.now.lo self.now.hi t }
    {
        self.lo <= c.lo(t) && c.hi(t) <= self.hi
    }

    /// Puts a value into the set.
    pub(crate) fn insert(&mut self, a: i64)
        requires { IsBetween self.old.lo self.old.hi a }
        ensures ends { HasEndsOf self.old self.new }
        ensures members { (b : ℤ) → members self.new.set b ≡ (int_eq b a || members self.old.set b) }
    {
        self.set.insert(a);
    }

    /// Puts the values of the place that are between the ends into the set.
    pub(crate) fn gather(&mut self, c: &Ctx, t: Term)
        requires lawful { IsLawfulTerm (declared_sets (vars_of c.now)) t }
        requires named { IsNamed (vars_of c.now) t }
        ensures ends { HasEndsOf self.old self.new }
        ensures members { (b : ℤ) → IsBetween self.old.lo self.old.hi b → IsTrue (members self.new.set b) ↔ (IsTrue (members self.old.set b) ⊎ PlaceHas (box_of c.now) t b) }
        ensures only { (b : ℤ) → IsTrue (members self.new.set b) → IsTrue (members self.old.set b) ⊎ PlaceHas (box_of c.now) t b }
    {
        if self.spans(c, t) {
            if !self.has_all(c, t) {
                c.gather(t, &mut self.set);
            }
        } else {
            self.gather_some(c, t);
        }
    }

    // Whether the set is seen to have all values of the place.
    fn has_all(&self, c: &Ctx, t: Term) -> bool
        requires named { IsNamed (vars_of c.now) t }
        requires spans { Spans (box_of c.now) self.now.lo self.now.hi t }
        ensures { IsTrue result → HasAllOf (box_of c.now) t self.now.set }
    {
        match t {
            Term::Var(v) => self.has_all_of(c.doms(), v),
            Term::Const(_) | Term::Not(_) => false,
        }
    }

    // Whether it has all of the variable, none of which is below it.
    fn has_all_of(&self, doms: &Doms, v: VarId) -> bool
        requires within { number_of v < length doms.now.vars }
        requires above { (a : ℤ) → Has (set_of doms.now.now.sets (number_of v)) a → self.now.lo ≤ℤ a }
        ensures { IsTrue result → (a : ℤ) → Has (set_of doms.now.now.sets (number_of v)) a → IsTrue (members self.now.set a) }
    {
        match doms.next_outside(v, &self.set, self.lo) {
            Some(_) => false,
            None => true,
        }
    }

    // The same, value by value.
    fn gather_some(&mut self, c: &Ctx, t: Term)
        requires { IsNamed (vars_of c.now) t }
        ensures ends { HasEndsOf self.old self.new }
        ensures members { (b : ℤ) → IsBetween self.old.lo self.old.hi b → IsTrue (members self.new.set b) ↔ (IsTrue (members self.old.set b) ⊎ PlaceHas (box_of c.now) t b) }
        ensures only { (b : ℤ) → IsTrue (members self.new.set b) → IsTrue (members self.old.set b) ⊎ PlaceHas (box_of c.now) t b }
    {
        let mut a = self.lo - 1;
        while let Some(next) = self.next_within(c, t, a) {
            self.insert(next);
            a = next;
        }
    }

    // The least value of the place that is greater than `a`, up to the end.
    fn next_within(&self, c: &Ctx, t: Term, a: i64) -> Option<i64>
        requires { IsNamed (vars_of c.now) t }
        ensures { IsNextBefore (box_of c.now) t self.now.hi a result }
    {
        match c.next(t, a) {
            Some(next) => { if next <= self.hi { Some(next) } else { None } }
            None => None,
        }
    }
}
