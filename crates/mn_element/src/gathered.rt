//! The entry of a vector at an index, by sets.
ghost use Rattle.std.specs.Prelude.{◌≡◌, ◌≤◌, ◌≤ℤ◌, ℤ, pos, IsTrue, false};
ghost use Rattle.mn_model.specs.declared.limits.TheConstants.{PLACES};
ghost use Rattle.mn_boxes.specs.Values.{members};
ghost use Rattle.mn_boxes.specs.Boxes.{declared_variables};
ghost use Rattle.mn_prop.specs.Contexts.{box_of, vars_of};
ghost use Rattle.mn_prop.specs.Losses.{Unsupported};
ghost use Rattle.mn_prop.specs.Passes.{IsStep};
ghost use Rattle.mn_prop.specs.Posts.{ClosedUnderLeaf, IsReadyToRun};

use crate::indexed::Indexed;
use crate::stretch::{Ends, Stretch};
use mn_boxes::ValueSet;
use mn_model::PLACES;
use mn_prop::{Ctx, Fail};
use std::alloc::{AllocError, Global};

/// How many values a set may have room for, for each entry.
const EACH: i64 = 64;

/// And how many beside those.
const BESIDE: i64 = 4096;

/// What a pass gathers. The sets are filled anew at each.
#[derive(Drop)]
pub(crate) struct Gathered {
    /// The values of the result.
    wanted: Stretch,
    picked: Picked,
}

/// What the entries at indices have of the result.
#[derive(Drop)]
pub(crate) struct Picked {
    /// The indices whose entry has a value of the result.
    indices: Stretch,
    /// The values of those entries.
    found: Stretch,
}

impl Gathered {
    ghost use Rattle.mn_element.specs.Elements.{first_index, indexed_of};
    ghost use Rattle.mn_element.specs.Gathers.{HasRoom, IsGathered};
    ghost use Rattle.mn_element.specs.Stretches.{Spans};

    /// Sets with room for what is declared, if it isn't too much.
    pub(crate) fn build(alloc: Global, of: &Indexed) -> Result<Option<Gathered>, AllocError>
        requires { IsReadyToRun (declared_variables of.now.inst.now.decls) (indexed_of of.now) }
    {
        let entries = of.v.len();
        if entries == 0 || entries > PLACES as usize {
            return Ok(None);
        }
        let most = EACH * entries as i64 + BESIDE;
        let ends = match of.declared_ends(most) {
            Some(ends) => ends,
            None => return Ok(None),
        };
        let first = of.form.first();
        let last = last_index(first, entries);
        let indices = Stretch::new(
            alloc,
            Ends {
                lo: first,
                hi: last,
            },
        )?;
        let wanted = Stretch::new(alloc, ends)?;
        let found = Stretch::new(alloc, ends)?;
        Ok(Some(Gathered {
            wanted,
            picked: Picked { indices, found },
        }))
    }

    /// Takes values that aren't supported: those of the index, of the result, and of an entry that is the only one.
    pub(crate) fn filter(&mut self, of: &Indexed, c: &mut Ctx) -> Result<(), Fail>
        requires { IsReadyToRun (vars_of c.old) (indexed_of of.now) }
        ensures { IsStep (Unsupported (indexed_of of.now)) (ClosedUnderLeaf (vars_of c.old) (indexed_of of.now)) c.old c.new result }
    {
        c.lawful();
        if !self.has_room(of, c) {
            return of.filter(c);
        }
        self.gather(of, c);
        c.keep(of.x, self.picked.indices.set())?;
        c.keep(of.y, self.picked.found.set())?;
        of.narrow_entry(c)
    }

    // Whether the sets have room for the indices and for the values of the result.
    fn has_room(&self, of: &Indexed, c: &Ctx) -> bool
        requires { IsReadyToRun (vars_of c.now) (indexed_of of.now) }
        ensures wanted { IsTrue result → Spans (box_of c.now) self.now.wanted.lo self.now.wanted.hi of.now.y }
        ensures picked { IsTrue result → HasRoom (box_of c.now) of.now.x of.now.y self.now.picked }
    {
        self.wanted.spans(c, of.y)
            && self.picked.indices.spans(c, of.x)
            && self.picked.found.spans(c, of.y)
    }

    // Fills the sets.
    fn gather(&mut self, of: &Indexed, c: &Ctx)
        requires ready { IsReadyToRun (vars_of c.now) (indexed_of of.now) }
        requires wanted { Spans (box_of c.now) self.old.wanted.lo self.old.wanted.hi of.now.y }
        requires room { HasRoom (box_of c.now) of.now.x of.now.y self.old.picked }
        ensures { IsGathered (box_of c.now) (first_index of.now.form) of.now.v.now of.now.x of.now.y (λ i. Unit {0}) self.new.picked }
    {
        self.wanted.clear();
        self.wanted.gather(c, of.y);
        self.picked.indices.clear();
        self.picked.found.clear();
        self.picked.look_at_all(of, c, self.wanted.set());
    }
}

impl Picked {
    ghost use Rattle.mn_boxes.specs.Places.{PlaceHas};
    ghost use Rattle.mn_element.specs.Elements.{first_index, indexed_of};
    ghost use Rattle.mn_element.specs.Gathers.{GathersAt, HasRoom, HasValuesOf, IsGathered};
    ghost use Rattle.mn_element.specs.Stretches.{Spans};

    // Looks at the entry at each index.
    fn look_at_all(&mut self, of: &Indexed, c: &Ctx, wanted: &ValueSet)
        requires ready { IsReadyToRun (vars_of c.now) (indexed_of of.now) }
        requires wanted { HasValuesOf (box_of c.now) of.now.y wanted.now }
        requires room { HasRoom (box_of c.now) of.now.x of.now.y self.old }
        requires indices { (i : ℤ) → members self.old.indices.set i ≡ false }
        requires found { (b : ℤ) → members self.old.found.set b ≡ false }
        ensures { IsGathered (box_of c.now) (first_index of.now.form) of.now.v.now of.now.x of.now.y (λ i. Unit {0}) self.new }
    {
        let mut i = c.lo(of.x);
        self.look_at(of, c, wanted, i);
        while let Some(next) = c.next(of.x, i) {
            i = next;
            self.look_at(of, c, wanted, i);
        }
    }

    // Puts the index into the set if its entry has a value of the result, with the values of the entry.
    fn look_at(&mut self, of: &Indexed, c: &Ctx, wanted: &ValueSet, i: i64)
        requires ready { IsReadyToRun (vars_of c.now) (indexed_of of.now) }
        requires wanted { HasValuesOf (box_of c.now) of.now.y wanted.now }
        requires room { HasRoom (box_of c.now) of.now.x of.now.y self.old }
        requires there { PlaceHas (box_of c.now) of.now.x i }
        ensures room { HasRoom (box_of c.now) of.now.x of.now.y self.new }
        ensures more { GathersAt (box_of c.now) (first_index of.now.form) of.now.v.now of.now.y i self.old self.new }
    {
        if let Some(k) = of.entry_at(i) {
            let t = *of.v.get(k);
            if c.meets(t, wanted) {
                self.indices.insert(i);
                self.found.gather(c, t);
            }
        }
    }
}

// The index of the last of so many entries.
fn last_index(first: i64, entries: usize) -> i64
    requires first { pos 0 ≤ℤ first }
    requires low { first ≤ℤ pos 1 }
    requires some { 1 ≤ entries }
    requires few { entries ≤ PLACES }
    ensures low { first ≤ℤ result }
    ensures high { result ≤ℤ pos PLACES }
{
    first + (entries as i64 - 1)
}
