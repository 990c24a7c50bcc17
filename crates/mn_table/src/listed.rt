//! Tuples that are allowed, value by value.
ghost use Rattle.std.specs.Prelude.{◌≡◌, ◌↔◌, ◌<◌, ◌≤◌, IsTrue, length};
ghost use Rattle.mn_model.specs.Lawful.{SuitsTable};
ghost use Rattle.mn_meaning.specs.Families.{rows_of};
ghost use Rattle.mn_meaning.specs.Meaning.{tuples_of};

use crate::rows::is_choice_with;
use mn_model::{Instance, Tab, Term, Terms};
use mn_prop::{Ctx, Fail, Scoped, SupportTest, revise_all};

/// A vector, and the tuples of a table.
#[derive(Drop)]
pub struct Listed<'a> {
    pub(crate) v: &'a Terms,
    pub(crate) tab: &'a Tab,
    /// The numbers of one tuple after another.
    pub(crate) cells: &'a [i64],
    pub(crate) inst: &'a Instance,
    ghost some: { 1 ≤ length v.now },
    ghost rows: { tuples_of inst.now.tuples tab.now ≡ rows_of (length v.now) cells.now },
}

/// The numbers of the tuples of a table that suits the vector.
pub(crate) fn cells_of<'a>(inst: &'a Instance, v: &Terms, tab: &'a Tab) -> &'a [i64]
    requires { SuitsTable inst.now.tuples (length v.now, tab.now) }
    ensures { tuples_of inst.now.tuples tab.now ≡ rows_of (length v.now) result.now }
{
    match tab {
        Tab::Named(n) => match inst.tuples().get(*n as usize) {
            Some(list) => list.cells.as_slice(),
            None => unreachable!(),
        },
        Tab::Here { cells, .. } => cells.as_slice(),
    }
}

impl<'a> Listed<'a> {
    /// Those of a vector with places and a table that suits it.
    pub(crate) fn of(inst: &'a Instance, v: &'a Terms, tab: &'a Tab) -> Listed<'a>
        requires some { 1 ≤ length v.now }
        requires suits { SuitsTable inst.now.tuples (length v.now, tab.now) }
        ensures v { result.v.now ≡ v.now }
        ensures tab { result.tab.now ≡ tab.now }
        ensures inst { result.inst.now ≡ inst.now }
    {
        let cells = cells_of(inst, v, tab);
        Listed {
            v,
            tab,
            cells,
            inst,
        }
    }
}

impl Listed<'_> {
    ghost use Rattle.mn_prop.specs.Contexts.{box_of, vars_of};
    ghost use Rattle.mn_prop.specs.Losses.{Unsupported};
    ghost use Rattle.mn_prop.specs.Passes.{IsStep};
    ghost use Rattle.mn_prop.specs.Posts.{ClosedUnderLeaf, IsReadyToRun};
    ghost use Rattle.mn_table.specs.Tables.{RowWith, listed_of};

    /// Takes each value that no tuple supports.
    pub(crate) fn filter(&self, c: &mut Ctx) -> Result<(), Fail>
        requires { IsReadyToRun (vars_of c.old) (listed_of self.now) }
        ensures { IsStep (Unsupported (listed_of self.now)) (ClosedUnderLeaf (vars_of c.old) (listed_of self.now)) c.old c.new result }
    {
        revise_all(self, c)
    }

    // Whether a tuple whose values are at their places has `a` at place i.
    fn has_row(&self, c: &Ctx, i: usize, a: i64) -> bool
        requires ready { IsReadyToRun (vars_of c.now) (listed_of self.now) }
        requires place { i < length self.now.v.now }
        ensures { IsTrue result ↔ RowWith (box_of c.now) self.now.v.now i a (rows_of (length self.now.v.now) self.now.cells.now) }
    {
        let arity = self.v.len();
        let mut rest = self.cells;
        while rest.len() >= arity {
            let (row, others) = rest.split_at(arity);
            if is_choice_with(c, self.v.as_slice(), row, i, a) {
                return true;
            }
            rest = others;
        }
        false
    }
}

impl Scoped for Listed<'_> {
    ghost use Rattle.mn_prop.specs.Footings.{no_footing};
    ghost use Rattle.mn_table.specs.Tables.{listed_of};

    ghost posted = { listed_of };

    ghost footing = { λ _. no_footing };

    fn places(&self) -> usize {
        self.v.len()
    }

    fn term(&self, i: usize) -> Term {
        *self.v.get(i)
    }
}

impl SupportTest for Listed<'_> {
    fn supported(&self, c: &Ctx, i: usize, a: i64) -> bool {
        self.has_row(c, i, a)
    }

    fn bare(&self) -> bool {
        true
    }

    fn by_ends(&self) -> bool {
        false
    }
}
