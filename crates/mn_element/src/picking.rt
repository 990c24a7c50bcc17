//! What is looked for in the entries of a vector.
ghost use Rattle.std.specs.Prelude.{◌↔◌, IsTrue};
ghost use Rattle.mn_boxes.specs.Places.{PlaceHas};
ghost use Rattle.mn_prop.specs.Contexts.{IsNamed, box_of, vars_of};
ghost use Rattle.mn_element.specs.Picks.{Share};

use mn_model::Term;
use mn_prop::Ctx;

/// The value that is wanted of an entry and the result.
#[derive(Clone, Copy, Debug, PartialEq, Eq)]
pub(crate) enum Wanted {
    /// Any value.
    Anything,
    /// A value of one entry, and any value of the others.
    OfEntry(usize, i64),
    /// A value of the result.
    OfResult(i64),
}

/// Whether two places have a value in common.
pub(crate) fn share(c: &Ctx, t: Term, u: Term) -> bool
    requires first { IsNamed (vars_of c.now) t }
    requires second { IsNamed (vars_of c.now) u }
    ensures { IsTrue result ↔ Share (box_of c.now) t u }
{
    let mut a = c.lo(t);
    loop {
        if c.has(u, a) {
            return true;
        }
        match c.next(t, a) {
            Some(next) => a = next,
            None => return false,
        }
    }
}

/// Whether both have the value.
pub(crate) fn share_value(c: &Ctx, t: Term, u: Term, a: i64) -> bool
    requires first { IsNamed (vars_of c.now) t }
    requires second { IsNamed (vars_of c.now) u }
    ensures { IsTrue result ↔ (PlaceHas (box_of c.now) t a × PlaceHas (box_of c.now) u a) }
{
    c.has(t, a) && c.has(u, a)
}
