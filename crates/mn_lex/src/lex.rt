//! What narrows a constraint of two vectors.
ghost use Rattle.std.specs.Prelude.{◌≡◌, OnOk, true};
ghost use Rattle.mn_prop.specs.Contexts.{box_of, vars_of};
ghost use Rattle.mn_prop.specs.Footings.{no_footing};
ghost use Rattle.mn_prop.specs.Losses.{Unsupported};
ghost use Rattle.mn_prop.specs.Passes.{IsStep};
ghost use Rattle.mn_prop.specs.Posts.{ClosedUnderLeaf, IsReadyToRun, beside};
ghost use Rattle.mn_lex.specs.Lexicals.{IsOfVectors, posted_of, rests_of};

use crate::apart::Apart;
use crate::lexical::Lexical;
use mn_model::{Con, Instance, Term};
use mn_prop::{Ctx, Fail, Runner, Scoped};

/// What narrows a constraint of two vectors.
#[derive(Drop)]
pub enum LexCon<'a> {
    /// Two vectors in lexicographic order.
    Order(Lexical<'a>),
    /// Two vectors that differ.
    Differ(Apart<'a>),
}

impl<'a> LexCon<'a> {
    /// What narrows the constraint, beside the tuple lists of the instance. It borrows the vectors, and takes no memory.
    pub fn build(inst: &'a Instance, con: &'a Con) -> LexCon<'a>
        requires { IsOfVectors con.now }
        ensures { posted_of result ≡ beside inst.now.tuples con.now }
    {
        match con {
            Con::Lexleq(v, w) => LexCon::Order(Lexical {
                v,
                w,
                or_equal: true,
                inst,
            }),
            Con::Lexless(v, w) => LexCon::Order(Lexical {
                v,
                w,
                or_equal: false,
                inst,
            }),
            Con::Watchvecneq(v, w) => LexCon::Differ(Apart { v, w, inst }),
            _ => unreachable!(),
        }
    }

    // Takes values that aren't supported, or fails.
    fn filter(&self, c: &mut Ctx) -> Result<(), Fail>
        requires { IsReadyToRun (vars_of c.old) (posted_of self.now) }
        ensures step { IsStep (Unsupported (posted_of self.now)) (ClosedUnderLeaf (vars_of c.old) (posted_of self.now)) c.old c.new result }
        ensures settled { OnOk result (rests_of self.now ≡ true → ClosedUnderLeaf (vars_of c.old) (posted_of self.now) (box_of c.new)) }
    {
        match self {
            LexCon::Order(o) => o.filter(c),
            LexCon::Differ(d) => d.filter(c),
        }
    }
}

impl Scoped for LexCon<'_> {
    ghost posted = { posted_of };

    ghost footing = { λ n. no_footing };

    fn places(&self) -> usize {
        match self {
            LexCon::Order(o) => o.places(),
            LexCon::Differ(d) => d.places(),
        }
    }

    fn term(&self, i: usize) -> Term {
        match self {
            LexCon::Order(o) => o.term(i),
            LexCon::Differ(d) => d.term(i),
        }
    }
}

impl Runner for LexCon<'_> {
    ghost rests = { rests_of };

    // A cut of a place in order may reach another place that names the same variable.
    fn settles(&self) -> bool {
        match self {
            LexCon::Order(_) => false,
            LexCon::Differ(_) => true,
        }
    }

    fn pass(&mut self, c: &mut Ctx) -> Result<(), Fail> {
        self.filter(c)
    }
}
