//! How often a value stands: `occurrence`, `occurrenceleq` and `occurrencegeq`.
ghost use Rattle.std.specs.Prelude.{◌≡◌, ◌↔◌, ◌<◌, IsTrue, OnOk, length};
ghost use Rattle.mn_boxes.specs.Boxes.{set_of};
ghost use Rattle.mn_boxes.specs.Places.{PlaceHas};
ghost use Rattle.mn_model.specs.Domain.{Has};
ghost use Rattle.mn_model.specs.Variable.{number_of};
ghost use Rattle.mn_prop.specs.Contexts.{IsNamed, box_of, vars_of};
ghost use Rattle.mn_prop.specs.Footings.{no_footing};
ghost use Rattle.mn_prop.specs.Losses.{Unsupported};
ghost use Rattle.mn_prop.specs.Passes.{IsStep, Narrows};
ghost use Rattle.mn_prop.specs.Posts.{ClosedUnderLeaf, IsReadyToRun, beside};
ghost use Rattle.mn_count.specs.declared.occurrence.Amount.TheVariants.{AtLeast, AtMost, Is};
ghost use Rattle.mn_count.specs.Occurrences.{AllDropped, AllKept, IsFull, IsShort, IsTally, con_of};

use crate::changes::drop_value;
use mn_model::{Instance, Term, Terms, VarId};
use mn_prop::{Ctx, Fail, Scoped};

/// How often the value may stand.
#[derive(Clone, Copy)]
pub enum Amount {
    /// At most so often.
    AtMost(i64),
    /// At least so often.
    AtLeast(i64),
    /// As often as the value of a place says.
    Is(Term),
}

/// So many entries of a vector are a value.
#[derive(Drop)]
pub struct Occurrence<'a> {
    pub(crate) v: &'a Terms,
    pub(crate) k: i64,
    pub(crate) amount: Amount,
    pub(crate) inst: &'a Instance,
}

/// How many entries have the value alone, and how many have it.
#[derive(Clone, Copy)]
pub(crate) struct Tally {
    must: i64,
    may: i64,
}

// Whether the value is at the place.
fn stands_at(c: &Ctx, t: Term, k: i64) -> bool
    requires { IsNamed (vars_of c.now) t }
    ensures { IsTrue result ↔ PlaceHas (box_of c.now) t k }
{
    match t {
        Term::Var(v) => is_in(c, v, k),
        Term::Const(_) | Term::Not(_) => c.has(t, k),
    }
}

// Whether the variable has the value. Where no value is missing between its ends, they tell it.
fn is_in(c: &Ctx, v: VarId, k: i64) -> bool
    requires { number_of v < length (vars_of c.now) }
    ensures { IsTrue result ↔ Has (set_of (box_of c.now) (number_of v)) k }
{
    c.lawful();
    let lo = c.lo(Term::Var(v));
    let hi = c.hi(Term::Var(v));
    if k < lo || hi < k {
        return false;
    }
    if hi.abs_diff(lo) < c.doms().size(v) {
        return true;
    }
    c.doms().has(v, k)
}

impl<'a> Occurrence<'a> {
    ghost use Rattle.mn_count.specs.Counts.{occurrence_of};

    /// What narrows the constraint that `k` stands so often among `v`.
    pub(crate) fn new(inst: &'a Instance, v: &'a Terms, k: i64, amount: Amount) -> Occurrence<'a>
        ensures { occurrence_of result ≡ beside inst.now.tuples (con_of v.now k amount) }
    {
        Occurrence { v, k, amount, inst }
    }

    /// Takes the value out of all entries that have others, or all others where it is, as far as its number asks for it.
    pub(crate) fn filter(&self, c: &mut Ctx) -> Result<(), Fail>
        requires { IsReadyToRun (vars_of c.old) (occurrence_of self.now) }
        ensures { IsStep (Unsupported (occurrence_of self.now)) (ClosedUnderLeaf (vars_of c.old) (occurrence_of self.now)) c.old c.new result }
    {
        let tally = self.tally(c);
        match self.amount {
            Amount::AtMost(most) => self.at_most(c, tally, most),
            Amount::AtLeast(least) => self.at_least(c, tally, least),
            Amount::Is(x) => self.exactly(c, tally, x),
        }
    }

    // How often the value stands whatever is chosen, and how often it can.
    fn tally(&self, c: &Ctx) -> Tally
        requires { IsReadyToRun (vars_of c.now) (occurrence_of self.now) }
        ensures { IsTally (box_of c.now) self.now.k self.now.v.now result.must result.may }
    {
        c.lawful();
        let mut must = 0;
        let mut may = 0;
        for i in 0..self.v.len() {
            let t = *self.v.get(i);
            if !stands_at(c, t, self.k) {
                continue;
            }
            may += 1;
            if c.is_single(t) {
                must += 1;
            }
        }
        Tally { must, may }
    }

    // Where it must stand as often as it may, it goes from all other entries.
    fn at_most(&self, c: &mut Ctx, tally: Tally, most: i64) -> Result<(), Fail>
        requires ready { IsReadyToRun (vars_of c.old) (occurrence_of self.now) }
        requires amount { self.now.amount ≡ AtMost most }
        requires tally { IsTally (box_of c.old) self.now.k self.now.v.now tally.must tally.may }
        ensures { IsStep (Unsupported (occurrence_of self.now)) (ClosedUnderLeaf (vars_of c.old) (occurrence_of self.now)) c.old c.new result }
    {
        c.lawful();
        if most < tally.must {
            return Err(Fail);
        }
        if tally.must < most {
            return Ok(());
        }
        self.drop_all(c)
    }

    // Where it can stand only as often as it has to, it stays at all entries that have it.
    fn at_least(&self, c: &mut Ctx, tally: Tally, least: i64) -> Result<(), Fail>
        requires ready { IsReadyToRun (vars_of c.old) (occurrence_of self.now) }
        requires amount { self.now.amount ≡ AtLeast least }
        requires tally { IsTally (box_of c.old) self.now.k self.now.v.now tally.must tally.may }
        ensures { IsStep (Unsupported (occurrence_of self.now)) (ClosedUnderLeaf (vars_of c.old) (occurrence_of self.now)) c.old c.new result }
    {
        c.lawful();
        if tally.may < least {
            return Err(Fail);
        }
        if least < tally.may {
            return Ok(());
        }
        self.keep_all(c)
    }

    // The number is that of a place, which may be an entry too: so the sets may have fewer values than were counted.
    fn exactly(&self, c: &mut Ctx, tally: Tally, x: Term) -> Result<(), Fail>
        requires ready { IsReadyToRun (vars_of c.old) (occurrence_of self.now) }
        requires amount { self.now.amount ≡ Is x }
        requires tally { IsTally (box_of c.old) self.now.k self.now.v.now tally.must tally.may }
        ensures { IsStep (Unsupported (occurrence_of self.now)) (ClosedUnderLeaf (vars_of c.old) (occurrence_of self.now)) c.old c.new result }
    {
        c.lawful();
        c.set_lo(x, tally.must)?;
        c.set_hi(x, tally.may)?;
        if c.hi(x) == tally.must {
            return self.drop_all(c);
        }
        if c.lo(x) == tally.may {
            return self.keep_all(c);
        }
        Ok(())
    }

    // Takes the value out of each entry that has others: it stands as often as it may without them.
    fn drop_all(&self, c: &mut Ctx) -> Result<(), Fail>
        requires ready { IsReadyToRun (vars_of c.old) (occurrence_of self.now) }
        requires full { IsFull (box_of c.old) self.now.k self.now.v.now self.now.amount }
        ensures narrows { Narrows (Unsupported (occurrence_of self.now)) (ClosedUnderLeaf (vars_of c.old) (occurrence_of self.now)) c.old c.new result }
        ensures still { OnOk result (box_of c.new ≡ box_of c.old → AllDropped (vars_of c.old) self.now.k self.now.v.now (box_of c.old)) }
    {
        c.lawful();
        for i in 0..self.v.len() {
            let t = *self.v.get(i);
            if c.is_single(t) {
                continue;
            }
            drop_value(c, t, self.k)?;
        }
        Ok(())
    }

    // Keeps the value alone at each entry that has it: all of them are needed.
    fn keep_all(&self, c: &mut Ctx) -> Result<(), Fail>
        requires ready { IsReadyToRun (vars_of c.old) (occurrence_of self.now) }
        requires short { IsShort (box_of c.old) self.now.k self.now.v.now self.now.amount }
        ensures narrows { Narrows (Unsupported (occurrence_of self.now)) (ClosedUnderLeaf (vars_of c.old) (occurrence_of self.now)) c.old c.new result }
        ensures still { OnOk result (box_of c.new ≡ box_of c.old → AllKept self.now.k self.now.v.now (box_of c.old)) }
    {
        c.lawful();
        for i in 0..self.v.len() {
            let t = *self.v.get(i);
            if !c.has(t, self.k) {
                continue;
            }
            c.assign(t, self.k)?;
        }
        Ok(())
    }
}

impl Scoped for Occurrence<'_> {
    ghost use Rattle.mn_count.specs.Counts.{occurrence_of};

    ghost posted = { occurrence_of };

    ghost footing = { λ _. no_footing };

    fn places(&self) -> usize {
        let entries = self.v.as_slice().len();
        match self.amount {
            Amount::Is(_) => entries + 1,
            Amount::AtMost(_) | Amount::AtLeast(_) => entries,
        }
    }

    fn term(&self, i: usize) -> Term {
        match self.amount {
            Amount::Is(x) => if i < self.v.as_slice().len() {
                *self.v.get(i)
            } else {
                x
            },
            Amount::AtMost(_) | Amount::AtLeast(_) => *self.v.get(i),
        }
    }
}
