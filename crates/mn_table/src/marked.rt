//! Tuples that are allowed, by sets.
ghost use Rattle.std.specs.Prelude.{◌≡◌, ◌↔◌, ◌<◌, ◌≤◌, ℕ, ℤ, pos, IsTrue, length};
ghost use Rattle.std.proofs.Props.{props};
ghost use Rattle.std.specs.List.{AllByRecursion};
ghost use Rattle.mn_boxes.specs.Values.{IsAsWide, IsCovered, members};
ghost use Rattle.mn_meaning.specs.Families.{rows_of};

use crate::listed::Listed;
use crate::room::Room;
use crate::rows::is_choice;
use mn_boxes::ValueSet;
use mn_prop::{Ctx, Fail};
use std::alloc::{AllocError, Global};

/// A vector and the tuples of a table, with the sets that a pass fills anew.
#[derive(Drop)]
pub struct Marked<'a> {
    pub(crate) of: Listed<'a>,
    /// The numbers of the tuples whose values are all at their places.
    alive: ValueSet,
    /// What those have at one place.
    found: ValueSet,
    ghost numbers: { (r : ℕ) → r < length (rows_of (length of.v.now) of.cells.now) → IsCovered alive (pos r) },
    ghost values: { AllByRecursion (IsCovered found) of.cells.now } by { Prim.hlevel props },
}

impl Listed<'_> {
    ghost use Rattle.mn_prop.specs.Contexts.{box_of, vars_of};
    ghost use Rattle.mn_prop.specs.Losses.{Unsupported};
    ghost use Rattle.mn_prop.specs.Passes.{IsStep};
    ghost use Rattle.mn_prop.specs.Posts.{ClosedUnderLeaf, IsReadyToRun};
    ghost use Rattle.mn_table.specs.Marks.{AreAlive, FoundWith};
    ghost use Rattle.mn_table.specs.Tables.{listed_of};

    // Puts the numbers of the tuples whose values are all at their places into the set.
    fn mark(&self, c: &Ctx, alive: &mut ValueSet)
        requires ready { IsReadyToRun (vars_of c.now) (listed_of self.now) }
        requires covered { (r : ℕ) → r < length (rows_of (length self.now.v.now) self.now.cells.now) → IsCovered alive.old (pos r) }
        ensures wide { IsAsWide alive.old alive.new }
        ensures alive { AreAlive (box_of c.now) self.now.v.now (rows_of (length self.now.v.now) self.now.cells.now) alive.new }
    {
        alive.clear();
        let arity = self.v.len();
        let mut rest = self.cells;
        let mut number: usize = 0;
        while rest.len() >= arity {
            let (row, others) = rest.split_at(arity);
            if is_choice(c, self.v.as_slice(), row) {
                alive.insert(number as i64);
            }
            number += 1;
            rest = others;
        }
    }

    // Puts what the tuples of these numbers have at place i into the set.
    fn gather(&self, i: usize, alive: &ValueSet, found: &mut ValueSet)
        requires place { i < length self.now.v.now }
        requires covered { AllByRecursion (IsCovered found.old) self.now.cells.now }
        ensures wide { IsAsWide found.old found.new }
        ensures found { (a : ℤ) → IsTrue (members found.new a) ↔ FoundWith alive.now i a (rows_of (length self.now.v.now) self.now.cells.now) }
    {
        found.clear();
        let arity = self.v.len();
        let mut rest = self.cells;
        let mut number: usize = 0;
        while rest.len() >= arity {
            let (row, others) = rest.split_at(arity);
            if alive.has(number as i64) {
                found.insert(row[i]);
            }
            number += 1;
            rest = others;
        }
    }

    // Keeps at each place what the tuples of these numbers have there.
    fn keep_each(&self, c: &mut Ctx, alive: &ValueSet, found: &mut ValueSet) -> Result<(), Fail>
        requires ready { IsReadyToRun (vars_of c.old) (listed_of self.now) }
        requires covered { AllByRecursion (IsCovered found.old) self.now.cells.now }
        requires alive { AreAlive (box_of c.old) self.now.v.now (rows_of (length self.now.v.now) self.now.cells.now) alive.now }
        ensures wide { IsAsWide found.old found.new }
        ensures step { IsStep (Unsupported (listed_of self.now)) (ClosedUnderLeaf (vars_of c.old) (listed_of self.now)) c.old c.new result }
    {
        for i in 0..self.v.len() {
            self.gather(i, alive, found);
            c.keep(*self.v.get(i), found)?;
        }
        Ok(())
    }
}

impl<'a> Marked<'a> {
    ghost use Rattle.std.specs.Prelude.{IfOk};
    ghost use Rattle.mn_table.specs.Marks.{IsRoomFor};

    /// With sets of so much room.
    pub(crate) fn new(alloc: Global, of: Listed<'a>, room: Room) -> Result<Marked<'a>, AllocError>
        requires { IsRoomFor (length of.v.now) of.cells.now room }
        ensures { IfOk result (λ m. m.of ≡ of.entry) }
    {
        let alive = ValueSet::new(alloc, 0, room.last)?;
        let found = ValueSet::new(alloc, room.lo, room.hi)?;
        Ok(Marked { of, alive, found })
    }
}

impl Marked<'_> {
    ghost use Rattle.mn_prop.specs.Contexts.{vars_of};
    ghost use Rattle.mn_prop.specs.Losses.{Unsupported};
    ghost use Rattle.mn_prop.specs.Passes.{IsStep};
    ghost use Rattle.mn_prop.specs.Posts.{ClosedUnderLeaf, IsReadyToRun};
    ghost use Rattle.mn_table.specs.Tables.{listed_of};

    /// Keeps at each place what the tuples have there whose values were all at their places.
    pub(crate) fn filter(&mut self, c: &mut Ctx) -> Result<(), Fail>
        requires { IsReadyToRun (vars_of c.old) (listed_of self.old.of) }
        ensures same { self.new.of ≡ self.old.of }
        ensures step { IsStep (Unsupported (listed_of self.old.of)) (ClosedUnderLeaf (vars_of c.old) (listed_of self.old.of)) c.old c.new result }
    {
        c.lawful();
        self.of.mark(c, &mut self.alive);
        self.of.keep_each(c, &self.alive, &mut self.found)
    }
}
