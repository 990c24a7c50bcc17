//! What is wanted of a reference where it stands, and what its end can break.
ghost use Rattle.std.specs.Prelude.{◌≡◌, ◌<◌, slice_get};
ghost use Rattle.mn_model.specs.Problem.{domains_of, variable_count};
ghost use Rattle.mn_model.specs.Variable.{number_of};
ghost use Rattle.mn_references.specs.References.{are_bits, are_zero_one};
ghost use Rattle.mn_references.specs.Aims.{aim_seen, AreDeclared};

use crate::{Bounds, Unfit, Want};
use mn_model::{Instance, PLACES, VarId};

/// What is wanted of a reference.
#[derive(Clone, Copy, Debug)]
pub enum Aimed {
    /// One variable, where it says so with the values 0 and 1.
    One(bool),
    Told(Want),
    /// A vector by itself.
    Whole(Bounds),
    /// A part of a bracketed list, after so many places.
    Part(Bounds, usize),
    /// A part of VARORDER, after so many variables.
    Ordered(usize),
}

// Whether a variable was declared with no values but 0 and 1.
fn is_bit(inst: &Instance, v: VarId) -> bool
    requires { number_of v < variable_count inst.now.decls }
    ensures { result ≡ are_zero_one (slice_get (domains_of inst.now.decls) (number_of v)) }
{
    let domain = inst.domain(v);
    domain.lawful();
    domain.lo() >= 0 && domain.hi() <= 1
}

/// Whether these variables were declared with no values but 0 and 1.
pub fn are_bits(inst: &Instance, vars: &[VarId]) -> bool
    requires { AreDeclared inst.now vars.now }
    ensures { result ≡ are_bits inst.now vars.now }
{
    let mut left = vars;
    while let [v, rest @ ..] = left {
        if !is_bit(inst, *v) {
            return false;
        }
        left = rest;
    }
    true
}

impl Aimed {
    /// Whether `_` may stand.
    pub fn slices(&self) -> bool
        ensures { (p : _) → result ≡ (aim_seen p self.now).slices }
    {
        match self {
            Aimed::One(_) => false,
            Aimed::Told(want) => want.slices,
            _ => true,
        }
    }

    /// What the end of a reference breaks, which names these variables, one in full or not.
    pub fn ends(&self, inst: &Instance, full: bool, vars: &[VarId]) -> Option<Unfit>
        requires { AreDeclared inst.now vars.now }
        ensures { result ≡ (aim_seen inst.now self.now).ends full vars.now }
    {
        let count = vars.len();
        let limit = PLACES as usize;
        let (long, broken) = match self {
            Aimed::One(bits) => (false, !full || (*bits && !are_bits(inst, vars))),
            Aimed::Told(want) => (
                (want.room as usize) < count,
                count < want.least as usize
                    || (want.most as usize) < count
                    || (want.bits && !are_bits(inst, vars))
                    || (if full { !want.single } else { !want.slices }),
            ),
            Aimed::Whole(bounds) => (
                limit < count,
                full || count < bounds.least as usize
                    || (bounds.most as usize) < count
                    || (bounds.bits && !are_bits(inst, vars)),
            ),
            Aimed::Part(bounds, before) => {
                let count = before.saturating_add(count);
                (
                    limit < count,
                    (bounds.most as usize) < count || (bounds.bits && !are_bits(inst, vars)),
                )
            }
            Aimed::Ordered(before) => (limit < before.saturating_add(count), false),
        };
        if long {
            Some(Unfit::Length)
        } else if broken {
            Some(Unfit::Form)
        } else {
            None
        }
    }
}
