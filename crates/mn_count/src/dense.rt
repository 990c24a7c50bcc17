//! Places that all differ, where their values stand close together.
ghost use Rattle.std.specs.Prelude.{◌≡◌, length};

use crate::alldiff::Alldiff;
use crate::open::OpenPlaces;
use crate::rounds::Rounds;
use crate::taken::Taken;
use mn_model::{Instance, Term, Terms, VALUE};
use mn_prop::{Ctx, Fail, Scoped};
use std::alloc::{AllocError, Global};

/// How many values a place may have room for, on average.
const ROOM: u64 = 64;

/// No two places have the same value. A pass takes time linear in the places and in the values of the open ones.
#[derive(Drop)]
pub struct Dense<'a> {
    each: Alldiff<'a>,
    rounds: Rounds,
    ghost room: { length rounds.open.items ≡ length each.v.now },
}

/// The least and the greatest of some numbers.
#[derive(Clone, Copy, Debug, PartialEq, Eq)]
struct Span {
    low: i64,
    high: i64,
}

// The least and the greatest number that the place was declared with.
fn declared(inst: &Instance, t: Term) -> Option<Span> {
    match t {
        Term::Var(v) => {
            if v.number() >= inst.vars() {
                return None;
            }
            let domain = inst.domain(v);
            Some(Span {
                low: domain.lo(),
                high: domain.hi(),
            })
        }
        Term::Const(k) => Some(Span { low: k, high: k }),
        Term::Not(_) => Some(Span { low: 0, high: 1 }),
    }
}

// The same of all places, if there are some.
fn declared_of_all(inst: &Instance, v: &Terms) -> Option<Span> {
    let mut whole: Option<Span> = None;
    for t in v.as_slice() {
        let span = declared(inst, *t)?;
        whole = match whole {
            Some(so_far) => Some(Span {
                low: so_far.low.min(span.low),
                high: so_far.high.max(span.high),
            }),
            None => Some(span),
        };
    }
    whole
}

// Room for the values from the least to the greatest, if they stand close enough together.
fn room_for(alloc: Global, span: Span, places: usize) -> Result<Option<Taken>, AllocError> {
    if span.low < -VALUE || VALUE < span.high || span.high < span.low {
        return Ok(None);
    }
    if span.high.abs_diff(span.low) / ROOM >= places as u64 {
        return Ok(None);
    }
    Ok(Some(Taken::new(alloc, span.low, span.high)?))
}

impl Dense<'_> {
    ghost use Rattle.std.specs.Prelude.{IfOk, IfSome};
    ghost use Rattle.mn_prop.specs.Contexts.{vars_of};
    ghost use Rattle.mn_prop.specs.Losses.{Unsupported};
    ghost use Rattle.mn_prop.specs.Passes.{IsStep};
    ghost use Rattle.mn_prop.specs.Posts.{ClosedUnderLeaf, IsReadyToRun};
    ghost use Rattle.mn_count.specs.Counts.{alldiff_of, dense_of};

    /// What narrows the places. None where the declared values don't stand close enough together.
    pub(crate) fn build<'a>(
        alloc: Global,
        each: Alldiff<'a>,
    ) -> Result<Option<Dense<'a>>, AllocError>
        ensures { IfOk result (λ some. IfSome some (λ d. dense_of d ≡ alldiff_of each.entry)) }
    {
        let Some(span) = declared_of_all(each.inst, each.v) else {
            return Ok(None);
        };
        let Some(taken) = room_for(alloc, span, each.v.len())? else {
            return Ok(None);
        };
        let open = OpenPlaces::new(alloc, each.v.len())?;
        let rounds = Rounds { taken, open };
        Ok(Some(Dense { each, rounds }))
    }

    /// Takes the values that places have alone out of all other places, until no more places have one alone, or fails.
    pub(crate) fn filter(&mut self, c: &mut Ctx) -> Result<(), Fail>
        requires { IsReadyToRun (vars_of c.old) (dense_of self.old) }
        ensures same { dense_of self.new ≡ dense_of self.old }
        ensures step { IsStep (Unsupported (dense_of self.old)) (ClosedUnderLeaf (vars_of c.old) (dense_of self.old)) c.old c.new result }
    {
        self.rounds.run(&self.each, c)
    }
}

impl Scoped for Dense<'_> {
    ghost use Rattle.mn_prop.specs.Footings.{no_footing};
    ghost use Rattle.mn_count.specs.Counts.{dense_of};

    ghost posted = { dense_of };

    ghost footing = { λ _. no_footing };

    fn places(&self) -> usize {
        self.each.places()
    }

    fn term(&self, i: usize) -> Term {
        self.each.term(i)
    }
}
