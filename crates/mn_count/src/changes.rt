//! Changes of one place.
ghost use Rattle.std.specs.Prelude.{◌≢◌};
ghost use Rattle.mn_prop.specs.Contexts.{IsNamed, vars_of};
ghost use Rattle.mn_prop.specs.Passes.{IsStep};
ghost use Rattle.mn_count.specs.Singles.{EachAsked, ThatAt};

use mn_model::Term;
use mn_prop::{Ctx, Fail};

/// Takes `a` out of the place, if it may go.
pub(crate) fn drop_value(c: &mut Ctx, t: Term, a: i64) -> Result<(), Fail>
    requires { IsNamed (vars_of c.old) t }
    ensures { IsStep (ThatAt t a) (EachAsked (vars_of c.old) t (λ b. b ≢ a)) c.old c.new result }
{
    c.lawful();
    if !c.may_remove(t, a) {
        return Ok(());
    }
    c.remove(t, a)
}
