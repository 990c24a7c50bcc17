//! Whether the values of a tuple are at the places of a vector.
ghost use Rattle.std.specs.Prelude.{◌≡◌, ◌↔◌, ◌<◌, IsTrue, length};
ghost use Rattle.std.specs.List.{AllByRecursion};
ghost use Rattle.mn_meaning.specs.Meaning.{at};
ghost use Rattle.mn_closure.specs.Supports.{Choice};
ghost use Rattle.mn_prop.specs.Contexts.{IsNamed, box_of, vars_of};

use mn_model::Term;
use mn_prop::Ctx;

/// Whether each value of the tuple is at its place.
pub(crate) fn is_choice(c: &Ctx, v: &[Term], row: &[i64]) -> bool
    requires named { AllByRecursion (IsNamed (vars_of c.now)) v.now }
    requires level { length row.now ≡ length v.now }
    ensures { IsTrue result ↔ Choice (box_of c.now) v.now row.now }
{
    for (t, a) in v.iter().zip(row) {
        if !c.has(*t, *a) {
            return false;
        }
    }
    true
}

/// Whether it is so, and `a` is the value at place i.
pub(crate) fn is_choice_with(c: &Ctx, v: &[Term], row: &[i64], i: usize, a: i64) -> bool
    requires named { AllByRecursion (IsNamed (vars_of c.now)) v.now }
    requires level { length row.now ≡ length v.now }
    requires place { i < length v.now }
    ensures { IsTrue result ↔ ((at row.now i ≡ a) × Choice (box_of c.now) v.now row.now) }
{
    row[i] == a && is_choice(c, v, row)
}
