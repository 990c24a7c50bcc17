//! The propagator of one constraint.
ghost use Rattle.std.specs.Prelude.{◌≡◌, IfOk};
ghost use Rattle.mn_boxes.specs.Boxes.{declared_variables};
ghost use Rattle.mn_prop.specs.Footings.{no_footing};
ghost use Rattle.mn_prop.specs.Posts.{IsReadyToRun, beside};
ghost use Rattle.mn_leaf.specs.Leaves.{posted_of, rests_of};

use mn_arith::Arith;
use mn_basic::Basic;
use mn_count::Count;
use mn_domains::Doms;
use mn_element::Element;
use mn_lex::LexCon;
use mn_model::{Con, Instance, Term};
use mn_prop::{Ctx, Fail, Make, Runner, Scoped};
use mn_sums::Sum;
use mn_table::Table;
use std::alloc::{AllocError, Global};

/// What narrows one constraint, of any form.
#[derive(Drop)]
pub enum Leaf<'a> {
    /// Two terms or one, and what is checked forward.
    Basic(Basic<'a>),
    /// Sums.
    Sum(Sum<'a>),
    /// Differences, products, quotients, remainders, the greatest and the least.
    Arith(Arith<'a>),
    /// The entry of a vector at an index.
    Element(Element<'a>),
    /// Equal values that are counted.
    Count(Count<'a>),
    /// Two vectors.
    Lex(LexCon<'a>),
    /// Tuples.
    Table(Table<'a>),
}

impl<'a> Leaf<'a> {
    /// What narrows the constraint, beside the tuple lists of the instance.
    pub fn build(alloc: Global, inst: &'a Instance, con: &'a Con) -> Result<Leaf<'a>, AllocError>
        requires ready { IsReadyToRun (declared_variables inst.now.decls) (beside inst.now.tuples con.now) }
        ensures { IfOk result (λ l. posted_of l ≡ beside inst.now.tuples con.now) }
    {
        match con {
            Con::Sumleq(_, _)
            | Con::Sumgeq(_, _)
            | Con::Weightedsumleq(_, _, _)
            | Con::Weightedsumgeq(_, _, _)
            | Con::Watchsumleq(_, _)
            | Con::Watchsumgeq(_, _)
            | Con::Litsumgeq(_, _, _) => Ok(Leaf::Sum(Sum::build(alloc, inst, con)?)),
            Con::Difference(_, _, _)
            | Con::Product(_, _, _)
            | Con::Div(_, _, _)
            | Con::Modulo(_, _, _)
            | Con::Max(_, _)
            | Con::Min(_, _) => Ok(Leaf::Arith(Arith::build(alloc, inst, con)?)),
            Con::Element(_, _, _)
            | Con::Watchelement(_, _, _)
            | Con::ElementOne(_, _, _)
            | Con::WatchelementOne(_, _, _) => {
                Ok(Leaf::Element(Element::build(alloc, inst, con)?))
            }
            Con::Alldiff(_)
            | Con::Occurrence(_, _, _)
            | Con::Occurrenceleq(_, _, _)
            | Con::Occurrencegeq(_, _, _)
            | Con::Hamming(_, _, _)
            | Con::Nvalueleq(_, _) => Ok(Leaf::Count(Count::build(alloc, inst, con)?)),
            Con::Lexleq(_, _) | Con::Lexless(_, _) | Con::Watchvecneq(_, _) => {
                Ok(Leaf::Lex(LexCon::build(inst, con)))
            }
            Con::Table(_, _) | Con::Negativetable(_, _) => {
                Ok(Leaf::Table(Table::build(alloc, inst, con)?))
            }
            _ => Ok(Leaf::Basic(Basic::build(alloc, inst, con)?)),
        }
    }
}

impl Scoped for Leaf<'_> {
    ghost posted = { posted_of };

    ghost footing = { λ _. no_footing };

    fn places(&self) -> usize {
        match self {
            Leaf::Basic(b) => b.places(),
            Leaf::Sum(s) => s.places(),
            Leaf::Arith(a) => a.places(),
            Leaf::Element(e) => e.places(),
            Leaf::Count(c) => c.places(),
            Leaf::Lex(l) => l.places(),
            Leaf::Table(t) => t.places(),
        }
    }

    fn term(&self, i: usize) -> Term {
        match self {
            Leaf::Basic(b) => b.term(i),
            Leaf::Sum(s) => s.term(i),
            Leaf::Arith(a) => a.term(i),
            Leaf::Element(e) => e.term(i),
            Leaf::Count(c) => c.term(i),
            Leaf::Lex(l) => l.term(i),
            Leaf::Table(t) => t.term(i),
        }
    }
}

impl Runner for Leaf<'_> {
    ghost rests = { rests_of };

    fn settles(&self) -> bool {
        match self {
            Leaf::Basic(b) => b.settles(),
            Leaf::Sum(s) => s.settles(),
            Leaf::Arith(a) => a.settles(),
            Leaf::Element(e) => e.settles(),
            Leaf::Count(c) => c.settles(),
            Leaf::Lex(l) => l.settles(),
            Leaf::Table(t) => t.settles(),
        }
    }

    fn pass(&mut self, c: &mut Ctx) -> Result<(), Fail> {
        match self {
            Leaf::Basic(b) => b.pass(c),
            Leaf::Sum(s) => s.pass(c),
            Leaf::Arith(a) => a.pass(c),
            Leaf::Element(e) => e.pass(c),
            Leaf::Count(k) => k.pass(c),
            Leaf::Lex(l) => l.pass(c),
            Leaf::Table(t) => t.pass(c),
        }
    }
}

impl<'a> Make<'a> for Leaf<'a> {
    fn make(
        alloc: Global,
        inst: &'a Instance,
        con: &'a Con,
        _doms: &mut Doms,
    ) -> Result<Leaf<'a>, AllocError> {
        Leaf::build(alloc, inst, con)
    }
}
