//! One pair of places.
ghost use Rattle.std.specs.Prelude.{◌≡◌, false, true};
ghost use Rattle.mn_prop.specs.Contexts.{IsNamed, box_of, vars_of};
ghost use Rattle.mn_prop.specs.Passes.{IsStep};
ghost use Rattle.mn_count.specs.Distances.{AreParted, CanDiffer, IsSharedIn, is_one};

use crate::changes::drop_value;
use mn_model::Term;
use mn_prop::{Ctx, Fail};

/// Takes the value of a place that has one alone out of the other place of the pair.
pub(crate) fn part_pair(c: &mut Ctx, x: Term, y: Term) -> Result<(), Fail>
    requires first { IsNamed (vars_of c.old) x }
    requires second { IsNamed (vars_of c.old) y }
    ensures { IsStep (IsSharedIn x y) (AreParted (vars_of c.old) x y) c.old c.new result }
{
    c.lawful();
    if c.is_single(x) {
        let a = c.lo(x);
        return drop_value(c, y, a);
    }
    if c.is_single(y) {
        let a = c.lo(y);
        return drop_value(c, x, a);
    }
    Ok(())
}

/// Whether both places have one value alone, the same.
pub(crate) fn are_one(c: &Ctx, x: Term, y: Term) -> bool
    requires first { IsNamed (vars_of c.now) x }
    requires second { IsNamed (vars_of c.now) y }
    ensures is { result ≡ is_one (box_of c.now) x y }
    ensures differ { result ≡ false → CanDiffer (box_of c.now) x y }
{
    c.lo(x) == c.hi(y) && c.hi(x) == c.lo(y)
}
