//! What changes of all sets.
ghost use Rattle.std.specs.Prelude.{◌≡◌, ◌+◌, ◌*◌, ◌^◌, ◌<◌, ◌≤◌, length, replicate, slice_get, slice_set, Some, IfOk, ℕ, ◌-◌, ◌&&◌, not, false};
ghost use Rattle.std.specs.List.{AllByRecursion, AllZip};
ghost use Rattle.mn_boxes.specs.Bits.{bit_of, count_from};
ghost use Rattle.mn_domains.specs.Rows.{is_hit};
ghost use Rattle.mn_domains.specs.Held.{IsFull, IsShape, TellsMoved, cleared, sizes};

use super::layout::Layout;
use super::rows::Row;
use super::shape::{self, Ends, Shape};
use mn_boxes::bits::{WIDTH, count, is_set};
use mn_boxes::{Moved, ValueSet};
use mn_model::VARIABLES;
use std::alloc::{AllocError, Global};

/// The sets of all variables, but for what never changes of them.
#[derive(Drop)]
pub struct State {
    /// The ends of each variable's set.
    pub ends: Vec<Ends>,
    /// A bit for each value of the BOOL and DISCRETE variables.
    pub bits: Vec<u64>,
    /// How many values all sets have together.
    pub left: u64,
}

/// What moved where a set had the old ends and has the new ones.
pub fn moved(old: Ends, new: Ends) -> Moved
    ensures { TellsMoved old new result }
{
    Moved {
        lower: old.lo != new.lo,
        upper: old.hi != new.hi,
        fixed: new.size == 1 && old.size != 1,
        any: old.size != new.size,
    }
}

// So many words with all bits set.
fn ones(alloc: Global, words: usize) -> Result<Vec<u64>, AllocError>
    ensures { IfOk result (λ w. w.items ≡ replicate words u64.MAX) }
{
    vec![in alloc; u64::MAX; words]
}

// The ends of all that is declared, for each variable.
fn full_ends(alloc: Global, listed: &[i64], shapes: &[Shape]) -> Result<Vec<Ends>, AllocError>
    requires { AllByRecursion (IsShape listed.now (2 ^ 60)) shapes.now }
    ensures full { IfOk result (λ ends. AllZip (IsFull listed.now) shapes.now ends.items) }
    ensures small { IfOk result (λ ends. AllByRecursion (λ e. e.size ≤ 2 ^ 32) ends.items) }
{
    let mut ends = Vec::with_capacity(alloc, shapes.len())?;
    for shape in shapes {
        ends.push(shape::full(listed, *shape))?;
    }
    Ok(ends)
}

// How many values the sets with these ends have.
fn size_of_all(ends: &[Ends]) -> u64
    requires few { length ends.now ≤ VARIABLES }
    requires small { AllByRecursion (λ e. e.size ≤ 2 ^ 32) ends.now }
    ensures { result ≡ sizes ends.now }
{
    let mut size = 0;
    for one in ends {
        size += one.size;
    }
    size
}

impl State {
    ghost use Rattle.mn_domains.specs.States.{IsFullState, Sieves, Unmarks};

    /// All that is declared.
    pub fn full(alloc: Global, layout: &Layout) -> Result<State, AllocError>
        requires shaped { AllByRecursion (IsShape layout.now.listed.items layout.now.bits) layout.now.shapes.items }
        requires few { length layout.now.shapes.items ≤ VARIABLES }
        requires room { layout.now.bits ≤ 2 ^ 40 }
        ensures { IfOk result (IsFullState layout.now.listed.items layout.now.shapes.items) }
    {
        let bits = ones(alloc, layout.bits / WIDTH + 1)?;
        let ends = full_ends(alloc, layout.listed.as_slice(), layout.shapes.as_slice())?;
        let left = size_of_all(ends.as_slice());
        Ok(State { ends, bits, left })
    }

    /// Gives variable `i` the new ends in place of the old ones, and says what moved.
    pub fn put(&mut self, i: usize, old: Ends, new: Ends) -> Moved
        requires here { slice_get self.old.ends.items i ≡ Some old }
        requires less { new.size ≤ old.size }
        requires counted { old.size ≤ self.old.left }
        ensures ends { self.new.ends.items ≡ slice_set self.old.ends.items i new }
        ensures bits { self.new.bits.items ≡ self.old.bits.items }
        ensures left { self.new.left + old.size ≡ self.old.left + new.size }
        ensures moved { TellsMoved old new result }
    {
        self.ends[i] = new;
        self.left -= old.size - new.size;
        moved(old, new)
    }

    /// Clears a bit.
    fn clear(&mut self, bit: usize)
        requires { bit < 64 * length self.old.bits.items }
        ensures bits { self.new.bits.items ≡ cleared self.old.bits.items bit }
        ensures ends { self.new.ends.items ≡ self.old.ends.items }
        ensures left { self.new.left ≡ self.old.left }
    {
        self.bits[bit / WIDTH] &= !(1 << (bit % WIDTH));
    }

    /// Takes a value between the ends of variable `i` out, where it is there. This is its bit.
    pub fn unmark(&mut self, i: usize, old: Ends, bit: usize) -> Moved
        requires here { slice_get self.old.ends.items i ≡ Some old }
        requires room { bit < 64 * length self.old.bits.items }
        requires some { 1 ≤ old.size }
        requires counted { old.size ≤ self.old.left }
        ensures { Unmarks self.old self.new i old bit result }
    {
        if !is_set(self.bits.as_slice(), bit) {
            return moved(old, old);
        }
        self.clear(bit);
        let size = old.size - 1;
        self.put(i, old, Ends { size, ..old })
    }

    /// Takes the values of variable `i` out that fail. The row is that of its values, and `least` and `greatest` are the ends of
    /// what is left.
    pub fn sieve(
        &mut self,
        i: usize,
        old: Ends,
        row: Row,
        least: i64,
        greatest: i64,
        set: &ValueSet,
        wanted: bool,
    ) -> Moved
        requires here { slice_get self.old.ends.items i ≡ Some old }
        requires order { row.from ≤ row.to }
        requires room { row.to < 64 * length self.old.bits.items }
        requires plain { row.full ≡ false }
        requires short { row.to < 2 ^ 60 }
        requires small { row.to + row.raise < 2 ^ 62 }
        requires all { old.size ≡ count_from (bit_of self.old.bits.items) row.from (row.to + 1 - row.from) }
        requires counted { old.size ≤ self.old.left }
        ensures words { length self.new.bits.items ≡ length self.old.bits.items }
        ensures bits { (k : ℕ) → bit_of self.new.bits.items k ≡ (bit_of self.old.bits.items k && not (is_hit self.old.bits.items row set.now (not wanted) k)) }
        ensures put { Sieves self.old self.new i old row least greatest result }
    {
        row.keep_hits(&mut self.bits, set, wanted);
        let size = count(self.bits.as_slice(), row.from, row.to + 1) as u64;
        let new = Ends {
            lo: least,
            hi: greatest,
            size,
            place: old.place,
        };
        self.put(i, old, new)
    }

    /// The same sets, in memory of their own.
    pub fn copy(&self, alloc: Global) -> Result<State, AllocError>
        ensures ends { IfOk result (λ copy. copy.ends.items ≡ self.now.ends.items) }
        ensures bits { IfOk result (λ copy. copy.bits.items ≡ self.now.bits.items) }
        ensures left { IfOk result (λ copy. copy.left ≡ self.now.left) }
    {
        let ends = Vec::from_slice(alloc, self.ends.as_slice())?;
        let bits = Vec::from_slice(alloc, self.bits.as_slice())?;
        Ok(State {
            ends,
            bits,
            left: self.left,
        })
    }
}
