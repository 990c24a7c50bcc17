//! Two places in order: `ineq` and `watchless`.
ghost use Rattle.std.specs.Prelude.{◌≡◌, ◌↔◌, ◌+ℤ◌, ◌-ℤ◌, ◌<ℤ◌, IsTrue, OnOk, pos};
ghost use Rattle.mn_model.specs.Lawful.{IsNear};
ghost use Rattle.mn_prop.specs.Contexts.{IsNamed, box_of, vars_of};
ghost use Rattle.mn_prop.specs.Footings.{no_footing};
ghost use Rattle.mn_prop.specs.Losses.{Unsupported};
ghost use Rattle.mn_prop.specs.Passes.{IsStep};
ghost use Rattle.mn_prop.specs.Posts.{ClosedUnderLeaf, IsReadyToRun};

use mn_model::{Instance, Term};
use mn_prop::{Ctx, Fail, Scoped};

/// How two places are in order.
#[derive(Clone, Copy, Debug, PartialEq, Eq)]
pub enum Order {
    /// The first is at most the second and a number.
    AtMost(i64),
    /// The first is less than the second.
    Below,
}

/// Two places in order.
#[derive(Drop)]
pub struct Ineq<'a> {
    pub(crate) order: Order,
    pub(crate) x: Term,
    pub(crate) y: Term,
    pub(crate) inst: &'a Instance,
}

impl Ineq<'_> {
    ghost use Rattle.mn_basic.specs.Binaries.{ineq_of};

    /// Cuts either place by the end of the other, or fails.
    pub(crate) fn filter(&self, c: &mut Ctx) -> Result<(), Fail>
        requires { IsReadyToRun (vars_of c.old) (ineq_of self.now) }
        ensures step { IsStep (Unsupported (ineq_of self.now)) (ClosedUnderLeaf (vars_of c.old) (ineq_of self.now)) c.old c.new result }
        ensures settled { OnOk result (ClosedUnderLeaf (vars_of c.old) (ineq_of self.now) (box_of c.new)) }
    {
        c.lawful();
        let k = self.order.slack();
        if is_less_than_itself(self.x, self.y, k) {
            return Err(Fail);
        }
        let most = sum(c.hi(self.y), k);
        let least = difference(c.lo(self.x), k);
        c.set_hi(self.x, most)?;
        c.set_lo(self.y, least)
    }
}

impl Order {
    ghost use Rattle.mn_basic.specs.Binaries.{slack_of};

    // The number that the second place is added to.
    fn slack(self) -> i64
        ensures { result ≡ slack_of self }
    {
        match self {
            Order::AtMost(k) => k,
            Order::Below => -1,
        }
    }
}

// The sum and the difference, which an i64 has room for.
fn sum(a: i64, k: i64) -> i64
    requires value { IsNear a }
    requires slack { IsNear k }
    ensures { result ≡ a +ℤ k }
{
    a + k
}

fn difference(a: i64, k: i64) -> i64
    requires value { IsNear a }
    requires slack { IsNear k }
    ensures { result ≡ a -ℤ k }
{
    a - k
}

// Whether both places are one, which would be less than itself.
fn is_less_than_itself(x: Term, y: Term, k: i64) -> bool
    ensures { IsTrue result ↔ ((x ≡ y) × (k <ℤ pos 0)) }
{
    x == y && k < 0
}

impl Scoped for Ineq<'_> {
    ghost use Rattle.mn_basic.specs.Binaries.{ineq_of};

    ghost posted = { ineq_of };

    ghost footing = { λ s. no_footing };

    fn places(&self) -> usize {
        2
    }

    fn term(&self, i: usize) -> Term {
        if i == 0 { self.x } else { self.y }
    }
}
