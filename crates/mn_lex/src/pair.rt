//! Changes of one pair of places.
ghost use Rattle.std.specs.Prelude.{◌≡◌, ◌≢◌, OnOk, false, true};
ghost use Rattle.mn_prop.specs.Contexts.{IsNamed, box_of, vars_of};
ghost use Rattle.mn_prop.specs.Passes.{IsStep};
ghost use Rattle.mn_lex.specs.Orders.{AreOne, CanDiffer};
ghost use Rattle.mn_lex.specs.Pairs.{EachAsked, IsCut, IsOut, ThatAt};

use mn_model::Term;
use mn_prop::{Ctx, Fail};

/// Keeps the values of `x` that are at most `most`, and those of `y` that are at least `least`.
pub(crate) fn cut_pair(c: &mut Ctx, x: Term, y: Term, most: i64, least: i64) -> Result<(), Fail>
    requires first { IsNamed (vars_of c.old) x }
    requires second { IsNamed (vars_of c.old) y }
    ensures step { IsStep (IsOut x y most least) (IsCut x y most least) c.old c.new result }
    ensures cut { OnOk result (IsCut x y most least (box_of c.new)) }
{
    c.set_hi(x, most)?;
    c.set_lo(y, least)
}

/// Takes `a` out of the place, if it may go.
pub(crate) fn drop_value(c: &mut Ctx, t: Term, a: i64) -> Result<(), Fail>
    requires { IsNamed (vars_of c.old) t }
    ensures step { IsStep (ThatAt t a) (EachAsked (vars_of c.old) t (λ b. b ≢ a)) c.old c.new result }
    ensures settled { OnOk result (EachAsked (vars_of c.old) t (λ b. b ≢ a) (box_of c.new)) }
{
    c.lawful();
    if !c.may_remove(t, a) {
        return Ok(());
    }
    c.remove(t, a)
}

/// Whether both places have one value alone, the same.
pub(crate) fn are_one(c: &Ctx, x: Term, y: Term) -> bool
    requires first { IsNamed (vars_of c.now) x }
    requires second { IsNamed (vars_of c.now) y }
    ensures one { result ≡ true → AreOne (box_of c.now) x y }
    ensures two { result ≡ false → CanDiffer (box_of c.now) x y }
{
    c.lo(x) == c.hi(y) && c.hi(x) == c.lo(y)
}
