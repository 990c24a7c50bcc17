//! The sets of all variables, with what may be asked and changed of them.
ghost use Rattle.std.specs.Prelude.{◌≡◌, ◌<◌, ℤ, ◌⊎◌, [], IsTrue, ◌↔◌, IfOk, OnOk, OnErr, filter, int_le, int_lt, length, not, ◌&&◌};
ghost use Rattle.std.specs.List.{list_any};
ghost use Rattle.std.specs.Ordering.{int_eq};
ghost use Rattle.mn_model.specs.Domain.{Has, IsFirst, IsLast};
ghost use Rattle.mn_model.specs.Variable.{number_of};
ghost use Rattle.mn_model.specs.Problem.{domains_of};
ghost use Rattle.mn_boxes.specs.Boxes.{count_of, declared_variables, set_of, variable_at};
ghost use Rattle.mn_boxes.specs.Sets.{MayGo, least};
ghost use Rattle.mn_boxes.specs.Values.{IsAsWide, IsCovered, members};

use super::layout::layout_of;
use super::shape::{self, Shape};
use super::state::{State, moved};
use mn_boxes::{Moved, ValueSet};
use mn_model::{Instance, VarId};
use std::alloc::{AllocError, Global};
use std::marker::Model;

/// No value would stay.
#[derive(Clone, Copy, Debug, PartialEq, Eq)]
pub struct Emptied;

/// A set of values for each variable of an instance, and those that were saved. By its type the sets are a box.
#[derive(Drop)]
pub struct Doms {
    /// How each variable's set is held.
    shapes: Vec<Shape>,
    /// The declared values of the SPARSEBOUND variables.
    listed: Vec<i64>,
    current: State,
    saved: Vec<State>,
}

impl Model for Doms {
    ghost use Rattle.std.specs.Prelude.{[], map};
    ghost use Rattle.mn_domains.specs.Sets.{Sets};

    ghost Value = { Sets };

    ghost use Rattle.mn_domains.specs.Held.{IsKept, state_held, variable_held};

    ghost view = { λ d. record {
      vars = map (variable_held d.listed.items) d.shapes.items;
      now = state_held d.listed.items d.shapes.items d.current;
      saved = map (state_held d.listed.items d.shapes.items) d.saved.items;
      owners = [];
    } };

    ghost invariant = { λ d. IsKept d.listed.items d.shapes.items d.current d.saved.items };
}

impl Doms {
    ghost use Rattle.mn_domains.specs.Changes.{Changed, Restored, is_not, saved_now};
    ghost use Rattle.mn_domains.specs.Rows.{passes};
    ghost use Rattle.mn_domains.specs.Sets.{AreBoxes, Sets};
    ghost use Rattle.mn_domains.specs.Sifting.{stays};

    /// The declared sets, with no flags and no state saved.
    pub fn build(alloc: Global, inst: &Instance) -> Result<Doms, AllocError>
        ensures vars { IfOk result (λ d. d.vars ≡ declared_variables inst.now.decls) }
        ensures sets { IfOk result (λ d. d.now.sets ≡ domains_of inst.now.decls) }
        ensures flags { IfOk result (λ d. d.now.flags ≡ []) }
        ensures owners { IfOk result (λ d. d.owners ≡ []) }
        ensures saved { IfOk result (λ d. d.saved ≡ []) }
    {
        let layout = layout_of(alloc, inst)?;
        let current = State::full(alloc, &layout)?;
        Ok(Doms {
            shapes: layout.shapes,
            listed: layout.listed,
            current,
            saved: Vec::new(alloc),
        })
    }

    /// What the sets keep: now and whenever they were saved they are a box.
    pub fn lawful(&self)
        ensures { AreBoxes self.now }
    {
        let _left = self.current.left;
    }

    /// How many variables there are.
    pub fn vars(&self) -> usize
        ensures { result ≡ length self.now.vars }
    {
        self.shapes.len()
    }

    /// The least value of the variable's set.
    pub fn lo(&self, v: VarId) -> i64
        requires { number_of v < length self.now.vars }
        ensures { IsFirst result (set_of self.now.now.sets (number_of v)) }
    {
        self.current.ends[v.number() as usize].lo
    }

    /// The greatest value of the variable's set.
    pub fn hi(&self, v: VarId) -> i64
        requires { number_of v < length self.now.vars }
        ensures { IsLast result (set_of self.now.now.sets (number_of v)) }
    {
        self.current.ends[v.number() as usize].hi
    }

    /// The least and the greatest value of the variable's set.
    pub fn bounds(&self, v: VarId) -> (i64, i64)
        requires { number_of v < length self.now.vars }
        ensures low { IsFirst result.0 (set_of self.now.now.sets (number_of v)) }
        ensures high { IsLast result.1 (set_of self.now.now.sets (number_of v)) }
    {
        let ends = self.current.ends[v.number() as usize];
        (ends.lo, ends.hi)
    }

    /// How many values the variable's set has.
    pub fn size(&self, v: VarId) -> u64
        requires { number_of v < length self.now.vars }
        ensures { result ≡ length (set_of self.now.now.sets (number_of v)) }
    {
        self.current.ends[v.number() as usize].size
    }

    /// How many values all sets have together.
    pub fn left(&self) -> u64
        ensures { result ≡ count_of self.now.now.sets }
    {
        self.current.left
    }

    /// Whether `a` is in the variable's set.
    pub fn has(&self, v: VarId, a: i64) -> bool
        requires { number_of v < length self.now.vars }
        ensures { IsTrue result ↔ Has (set_of self.now.now.sets (number_of v)) a }
    {
        let i = v.number() as usize;
        shape::has(
            self.listed.as_slice(),
            self.current.bits.as_slice(),
            self.shapes[i],
            self.current.ends[i],
            a,
        )
    }

    /// Whether `a` alone may be taken out of the variable's set. The values of a BOUND or SPARSEBOUND variable go at the
    /// ends alone.
    pub fn may_remove(&self, v: VarId, a: i64) -> bool
        requires { number_of v < length self.now.vars }
        ensures { IsTrue result ↔ MayGo (variable_at self.now.vars (number_of v)) (set_of self.now.now.sets (number_of v)) a }
    {
        let i = v.number() as usize;
        shape::may_go(
            self.listed.as_slice(),
            self.current.bits.as_slice(),
            self.shapes[i],
            self.current.ends[i],
            a,
        )
    }

    /// The least value of the variable's set that is greater than `a`.
    pub fn next(&self, v: VarId, a: i64) -> Option<i64>
        requires { number_of v < length self.now.vars }
        ensures { result ≡ least (filter (λ x. int_lt a x) (set_of self.now.now.sets (number_of v))) }
    {
        let i = v.number() as usize;
        shape::next(
            self.listed.as_slice(),
            self.current.bits.as_slice(),
            self.shapes[i],
            self.current.ends[i],
            a,
        )
    }

    /// Keeps the values that are at least `a`.
    pub fn set_lo(&mut self, v: VarId, a: i64) -> Result<Moved, Emptied>
        requires { number_of v < length self.old.vars }
        ensures { Changed (λ x. int_le a x) (number_of v) self.old self.new result }
    {
        let i = v.number() as usize;
        let ends = self.current.ends[i];
        let shape = self.shapes[i];
        if ends.hi < a {
            return Err(Emptied);
        }
        if a <= ends.lo {
            return Ok(moved(ends, ends));
        }
        let listed = self.listed.as_slice();
        let bits = self.current.bits.as_slice();
        let cut = shape::cut_low(listed, bits, shape, ends, a);
        Ok(self.current.put(i, ends, cut))
    }

    /// Keeps the values that are at most `a`.
    pub fn set_hi(&mut self, v: VarId, a: i64) -> Result<Moved, Emptied>
        requires { number_of v < length self.old.vars }
        ensures { Changed (λ x. int_le x a) (number_of v) self.old self.new result }
    {
        let i = v.number() as usize;
        let ends = self.current.ends[i];
        let shape = self.shapes[i];
        if a < ends.lo {
            return Err(Emptied);
        }
        if ends.hi <= a {
            return Ok(moved(ends, ends));
        }
        let listed = self.listed.as_slice();
        let bits = self.current.bits.as_slice();
        let cut = shape::cut_high(listed, bits, shape, ends, a);
        Ok(self.current.put(i, ends, cut))
    }

    /// Keeps `a` alone.
    pub fn assign(&mut self, v: VarId, a: i64) -> Result<Moved, Emptied>
        requires { number_of v < length self.old.vars }
        ensures { Changed (λ x. int_eq x a) (number_of v) self.old self.new result }
    {
        let i = v.number() as usize;
        let ends = self.current.ends[i];
        let shape = self.shapes[i];
        let listed = self.listed.as_slice();
        let bits = self.current.bits.as_slice();
        if !shape::has(listed, bits, shape, ends, a) {
            return Err(Emptied);
        }
        let alone = shape::only(listed, bits, shape, ends, a);
        Ok(self.current.put(i, ends, alone))
    }

    /// Keeps the values other than `a`.
    pub fn remove(&mut self, v: VarId, a: i64) -> Result<Moved, Emptied>
        requires within { number_of v < length self.old.vars }
        requires may { MayGo (variable_at self.old.vars (number_of v)) (set_of self.old.now.sets (number_of v)) a }
        ensures { Changed (is_not a) (number_of v) self.old self.new result }
    {
        let i = v.number() as usize;
        let ends = self.current.ends[i];
        let shape = self.shapes[i];
        let listed = self.listed.as_slice();
        let bits = self.current.bits.as_slice();
        if ends.are(a) {
            return Err(Emptied);
        }
        match shape::inner_bit(listed, bits, shape, ends, a) {
            Some(bit) => Ok(self.current.unmark(i, ends, bit)),
            None => {
                let rest = shape::without(listed, bits, shape, ends, a);
                Ok(self.current.put(i, ends, rest))
            }
        }
    }

    /// Puts the values of the variable's set into the other one.
    pub fn gather(&self, v: VarId, into: &mut ValueSet)
        requires within { number_of v < length self.now.vars }
        requires covered { (a : ℤ) → Has (set_of self.now.now.sets (number_of v)) a → IsCovered into.old a }
        ensures wide { IsAsWide into.old into.new }
        ensures members { (a : ℤ) → IsTrue (members into.new a) ↔ (IsTrue (members into.old a) ⊎ Has (set_of self.now.now.sets (number_of v)) a) }
    {
        let i = v.number() as usize;
        shape::gather(
            self.listed.as_slice(),
            self.current.bits.as_slice(),
            self.shapes[i],
            self.current.ends[i],
            into,
        )
    }

    /// Whether a value of the variable's set is in the other one.
    pub fn meets(&self, v: VarId, values: &ValueSet) -> bool
        requires { number_of v < length self.now.vars }
        ensures { result ≡ list_any (members values.now) (set_of self.now.now.sets (number_of v)) }
    {
        let i = v.number() as usize;
        let ends = self.current.ends[i];
        let found = shape::next_passing(
            self.listed.as_slice(),
            self.current.bits.as_slice(),
            self.shapes[i],
            ends,
            ends.lo,
            values,
            true,
        );
        match found {
            Some(_) => true,
            None => false,
        }
    }

    /// The least value of the variable's set that is at least `a` and not in the other one.
    pub fn next_outside(&self, v: VarId, values: &ValueSet, a: i64) -> Option<i64>
        requires { number_of v < length self.now.vars }
        ensures { result ≡ least (filter (λ x. int_le a x && not (members values.now x)) (set_of self.now.now.sets (number_of v))) }
    {
        let i = v.number() as usize;
        shape::next_passing(
            self.listed.as_slice(),
            self.current.bits.as_slice(),
            self.shapes[i],
            self.current.ends[i],
            a,
            values,
            false,
        )
    }

    /// Keeps the values of the other set. Where values go at the ends alone, those from the least to the greatest of them.
    pub fn keep(&mut self, v: VarId, values: &ValueSet) -> Result<Moved, Emptied>
        requires { number_of v < length self.old.vars }
        ensures { Changed (stays (variable_at self.old.vars (number_of v)) (members values.now) (set_of self.old.now.sets (number_of v))) (number_of v) self.old self.new result }
    {
        self.sift(v, values, true)
    }

    /// Takes the values of the other set out. Where values go at the ends alone, as far as the first and from the last that
    /// isn't in it.
    pub fn exclude(&mut self, v: VarId, values: &ValueSet) -> Result<Moved, Emptied>
        requires { number_of v < length self.old.vars }
        ensures { Changed (stays (variable_at self.old.vars (number_of v)) (λ a. not (members values.now a)) (set_of self.old.now.sets (number_of v))) (number_of v) self.old self.new result }
    {
        self.sift(v, values, false)
    }

    /// Keeps the values that are in the other set, or that aren't where `wanted` is false.
    fn sift(&mut self, v: VarId, values: &ValueSet, wanted: bool) -> Result<Moved, Emptied>
        requires { number_of v < length self.old.vars }
        ensures { Changed (stays (variable_at self.old.vars (number_of v)) (passes values.now wanted) (set_of self.old.now.sets (number_of v))) (number_of v) self.old self.new result }
    {
        let i = v.number() as usize;
        let ends = self.current.ends[i];
        let shape = self.shapes[i];
        let listed = self.listed.as_slice();
        let bits = self.current.bits.as_slice();
        let lost = shape::next_passing(listed, bits, shape, ends, ends.lo, values, !wanted);
        if lost.is_none() {
            return Ok(moved(ends, ends));
        }
        let least = match shape::next_passing(listed, bits, shape, ends, ends.lo, values, wanted) {
            Some(a) => a,
            None => return Err(Emptied),
        };
        let greatest = match shape::last_passing(
            listed, bits, shape, ends, ends.lo, values, wanted,
        ) {
            Some(a) => a,
            None => return Err(Emptied),
        };
        match shape::marked_row(listed, bits, shape, ends) {
            Some(row) => Ok(
                self.current
                    .sieve(i, ends, row, least, greatest, values, wanted),
            ),
            None => {
                let cut = shape::between(listed, bits, shape, ends, least, greatest);
                Ok(self.current.put(i, ends, cut))
            }
        }
    }

    /// Keeps a copy of the state.
    pub fn save(&mut self) -> Result<(), AllocError>
        ensures ok { OnOk result (self.new ≡ saved_now self.old) }
        ensures err { OnErr result (self.new ≡ self.old) }
    {
        let copy = self.current.copy(*self.saved.allocator())?;
        self.saved.push(copy)?;
        Ok(())
    }

    /// Goes back to the state that was saved last. False exactly where none is saved.
    pub fn restore(&mut self) -> bool
        ensures { Restored self.old self.new result }
    {
        match self.saved.pop() {
            Some(last) => {
                self.current = last;
                true
            }
            None => false,
        }
    }
}
