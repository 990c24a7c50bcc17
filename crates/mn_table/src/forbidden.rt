//! Tuples that are forbidden.
ghost use Rattle.std.specs.Prelude.{◌≡◌, ◌^◌, ◌<◌, ◌≤◌, IfOk, List, ℤ, length};
ghost use Rattle.std.proofs.Props.{props};
ghost use Rattle.std.specs.List.{AllByRecursion};
ghost use Rattle.std.specs.Set.{is_member};
ghost use Rattle.mn_model.specs.Lawful.{SuitsTable};
ghost use Rattle.mn_meaning.specs.Meaning.{tuples_of};
ghost use Rattle.mn_table.specs.Choosing.{row_eq, rows_in};

use crate::listed::cells_of;
use crate::once::rows_once;
use crate::rows::is_choice_with;
use crate::sizes::{are_few, choices, size};
use indexmap::IndexSet;
use mn_model::{Instance, Tab, Term, Terms};
use mn_prop::{Ctx, Fail, Scoped, SupportTest, revise_all};
use std::alloc::{AllocError, Global};

/// A vector, and the tuples of a table, each once.
#[derive(Drop)]
pub struct Forbidden<'a> {
    pub(crate) v: &'a Terms,
    pub(crate) tab: &'a Tab,
    rows: IndexSet<Vec<i64>>,
    pub(crate) inst: &'a Instance,
    ghost some: { 1 ≤ length v.now },
    ghost level: { AllByRecursion (λ row. length row ≡ length v.now) (rows_in rows.keys) } by { Prim.hlevel props },
    ghost same: { (q : List ℤ) → is_member row_eq (rows_in rows.keys) q ≡ is_member row_eq (tuples_of inst.now.tuples tab.now) q } by { Prim.hlevel props },
}

impl<'a> Forbidden<'a> {
    /// Those of a vector with places and a table that suits it.
    pub(crate) fn of(
        alloc: Global,
        inst: &'a Instance,
        v: &'a Terms,
        tab: &'a Tab,
    ) -> Result<Forbidden<'a>, AllocError>
        requires some { 1 ≤ length v.now }
        requires suits { SuitsTable inst.now.tuples (length v.now, tab.now) }
        ensures v { IfOk result (λ f. f.v.now ≡ v.now) }
        ensures tab { IfOk result (λ f. f.tab.now ≡ tab.now) }
        ensures inst { IfOk result (λ f. f.inst.now ≡ inst.now) }
    {
        let rows = rows_once(alloc, cells_of(inst, v, tab), v.len())?;
        Ok(Forbidden { v, tab, rows, inst })
    }
}

impl Forbidden<'_> {
    ghost use Rattle.mn_prop.specs.Contexts.{box_of, vars_of};
    ghost use Rattle.mn_prop.specs.Losses.{Unsupported};
    ghost use Rattle.mn_prop.specs.Passes.{IsStep};
    ghost use Rattle.mn_prop.specs.Posts.{ClosedUnderLeaf, IsReadyToRun};
    ghost use Rattle.mn_table.specs.Choosing.{CountsWith};
    ghost use Rattle.mn_table.specs.Tables.{forbidden_of};

    /// Takes each value without a choice that isn't forbidden. Where the tuples are too few for that they aren't looked at.
    pub(crate) fn filter(&self, c: &mut Ctx) -> Result<(), Fail>
        requires { IsReadyToRun (vars_of c.old) (forbidden_of self.now) }
        ensures { IsStep (Unsupported (forbidden_of self.now)) (ClosedUnderLeaf (vars_of c.old) (forbidden_of self.now)) c.old c.new result }
    {
        c.lawful();
        if are_few(c, self.v.as_slice(), self.rows.len() as u64) {
            return Ok(());
        }
        revise_all(self, c)
    }

    // How many tuples whose values are at their places have `a` at place i.
    fn count(&self, c: &Ctx, i: usize, a: i64) -> usize
        requires ready { IsReadyToRun (vars_of c.now) (forbidden_of self.now) }
        requires place { i < length self.now.v.now }
        ensures few { result < 2 ^ 63 }
        ensures counts { CountsWith (box_of c.now) self.now.v.now i a (rows_in self.now.rows.keys) result }
    {
        let rows = self.rows.as_slice();
        let mut n: usize = 0;
        for r in 0..rows.len() {
            if is_choice_with(c, self.v.as_slice(), rows[r].as_slice(), i, a) {
                n += 1;
            }
        }
        n
    }
}

impl Scoped for Forbidden<'_> {
    ghost use Rattle.mn_prop.specs.Footings.{no_footing};
    ghost use Rattle.mn_table.specs.Tables.{forbidden_of};

    ghost posted = { forbidden_of };

    ghost footing = { λ _. no_footing };

    fn places(&self) -> usize {
        self.v.len()
    }

    fn term(&self, i: usize) -> Term {
        *self.v.get(i)
    }
}

impl SupportTest for Forbidden<'_> {
    fn supported(&self, c: &Ctx, i: usize, a: i64) -> bool {
        c.lawful();
        let many = choices(c, self.v.as_slice());
        let here = size(c, *self.v.get(i)) as u128;
        if self.rows.len() as u128 * here < many {
            return true;
        }
        self.count(c, i, a) as u128 * here < many
    }

    fn bare(&self) -> bool {
        true
    }

    fn by_ends(&self) -> bool {
        false
    }
}
