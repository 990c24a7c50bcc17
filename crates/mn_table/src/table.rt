//! What narrows a constraint of tuples.
ghost use Rattle.std.specs.Prelude.{◌≡◌, IfOk, false};
ghost use Rattle.mn_boxes.specs.Boxes.{declared_variables};
ghost use Rattle.mn_prop.specs.Contexts.{vars_of};
ghost use Rattle.mn_prop.specs.Footings.{no_footing};
ghost use Rattle.mn_prop.specs.Losses.{Unsupported};
ghost use Rattle.mn_prop.specs.Passes.{IsStep};
ghost use Rattle.mn_prop.specs.Posts.{ClosedUnderLeaf, IsReadyToRun, beside};
ghost use Rattle.mn_table.specs.Tables.{IsOfTuples, listed_of, posted_of};

use crate::forbidden::Forbidden;
use crate::listed::Listed;
use crate::marked::Marked;
use mn_model::{Con, Instance, Term};
use mn_prop::{Ctx, Fail, Runner, Scoped};
use std::alloc::{AllocError, Global};

/// The values of a vector are one of the tuples of a table, or none of them.
#[derive(Drop)]
pub enum Table<'a> {
    /// The values of the tuples are gathered in a set.
    ByMarks(Marked<'a>),
    /// Values are tried one by one, where those of the tuples span too much for a set.
    ByValue(Listed<'a>),
    /// The tuples are forbidden.
    NoneOf(Forbidden<'a>),
}

impl<'a> Table<'a> {
    /// What narrows the constraint, beside the tuple lists of the instance.
    pub fn build(alloc: Global, inst: &'a Instance, con: &'a Con) -> Result<Table<'a>, AllocError>
        requires form { IsOfTuples con.now }
        requires ready { IsReadyToRun (declared_variables inst.now.decls) (beside inst.now.tuples con.now) }
        ensures { IfOk result (λ t. posted_of t ≡ beside inst.now.tuples con.now) }
    {
        match con {
            Con::Table(v, tab) => Table::narrowing(alloc, Listed::of(inst, v, tab)),
            Con::Negativetable(v, tab) => { Ok(Table::NoneOf(Forbidden::of(alloc, inst, v, tab)?)) }
            _ => unreachable!(),
        }
    }

    // What narrows the places to tuples.
    fn narrowing(alloc: Global, of: Listed<'a>) -> Result<Table<'a>, AllocError>
        ensures { IfOk result (λ t. posted_of t ≡ listed_of of.entry) }
    {
        match of.room() {
            Some(room) => Ok(Table::ByMarks(Marked::new(alloc, of, room)?)),
            None => Ok(Table::ByValue(of)),
        }
    }
}

impl Table<'_> {
    // Takes values that no tuple supports, or fails.
    fn filter(&mut self, c: &mut Ctx) -> Result<(), Fail>
        requires { IsReadyToRun (vars_of c.old) (posted_of self.old) }
        ensures same { posted_of self.new ≡ posted_of self.old }
        ensures step { IsStep (Unsupported (posted_of self.old)) (ClosedUnderLeaf (vars_of c.old) (posted_of self.old)) c.old c.new result }
    {
        match self {
            Table::ByMarks(m) => m.filter(c),
            Table::ByValue(l) => l.filter(c),
            Table::NoneOf(f) => f.filter(c),
        }
    }
}

impl Scoped for Table<'_> {
    ghost posted = { posted_of };

    ghost footing = { λ _. no_footing };

    fn places(&self) -> usize {
        match self {
            Table::ByMarks(m) => m.of.places(),
            Table::ByValue(l) => l.places(),
            Table::NoneOf(f) => f.places(),
        }
    }

    fn term(&self, i: usize) -> Term {
        match self {
            Table::ByMarks(m) => m.of.term(i),
            Table::ByValue(l) => l.term(i),
            Table::NoneOf(f) => f.term(i),
        }
    }
}

impl Runner for Table<'_> {
    ghost rests = { λ _. false };

    // What goes from one place may go from another that names the same variable.
    fn settles(&self) -> bool {
        false
    }

    fn pass(&mut self, c: &mut Ctx) -> Result<(), Fail> {
        self.filter(c)
    }
}
