//! The parts of each kind of sum.
ghost use Rattle.std.specs.Prelude.{◌≡◌, ◌∷◌, ◌++◌, [], IfOk, map, neg_ℤ, true};
ghost use Rattle.std.specs.List.{AllByRecursion};
ghost use Rattle.mn_model.specs.Lawful.{IsNear};
ghost use Rattle.mn_model.specs.Parts.{constants};
ghost use Rattle.mn_sums.specs.Sums.{bound_of, is_sum, parts_of};
ghost use Rattle.mn_sums.specs.Parts.{made_of};
ghost use Rattle.mn_sums.specs.declared.part.Part.TheVariants.{Times};

use crate::part::Part;
use mn_model::{Con, Ints, Term, Terms};
use std::alloc::{AllocError, Global};

/// What a number and a place make.
#[derive(Clone, Copy, Debug, PartialEq, Eq)]
pub(crate) enum Making {
    /// The number is the weight of the place.
    Weight,
    /// It is the opposite of the weight.
    Opposite,
    /// It is the number that the place may be.
    Number,
}

/// The parts of a sum.
pub(crate) fn parts_of(alloc: Global, con: &Con) -> Result<Vec<Part>, AllocError>
    requires form { is_sum con.now ≡ true }
    requires near { AllByRecursion IsNear (constants con.now) }
    ensures { IfOk result (λ parts. parts.items ≡ parts_of con.now) }
{
    match con {
        Con::Sumleq(v, x) => followed(alike(alloc, 1, v)?, -1, *x),
        Con::Sumgeq(v, x) => followed(alike(alloc, -1, v)?, 1, *x),
        Con::Weightedsumleq(ks, v, x) => followed(each(alloc, Making::Weight, ks, v)?, -1, *x),
        Con::Weightedsumgeq(ks, v, x) => followed(each(alloc, Making::Opposite, ks, v)?, 1, *x),
        Con::Watchsumleq(v, _) => alike(alloc, 1, v),
        Con::Watchsumgeq(v, _) => alike(alloc, -1, v),
        Con::Litsumgeq(v, ks, _) => each(alloc, Making::Number, ks, v),
        _ => unreachable!(),
    }
}

/// What all parts together are at most.
pub(crate) fn bound_of(con: &Con) -> i64
    requires { AllByRecursion IsNear (constants con.now) }
    ensures { result ≡ bound_of con.now }
{
    match con {
        Con::Watchsumleq(_, k) => *k,
        Con::Watchsumgeq(_, k) => opposite(*k),
        Con::Litsumgeq(_, _, k) => opposite(*k),
        _ => 0,
    }
}

fn opposite(k: i64) -> i64
    requires { IsNear k }
    ensures { result ≡ neg_ℤ k }
{
    -k
}

// Each place with one weight.
fn alike(alloc: Global, weight: i64, v: &Terms) -> Result<Vec<Part>, AllocError>
    ensures { IfOk result (λ parts. parts.items ≡ map (λ t. Times weight t) v.now) }
{
    let mut parts = Vec::with_capacity(alloc, v.len())?;
    for t in v.as_slice() {
        parts.push(Part::Times(weight, *t))?;
    }
    Ok(parts)
}

// Each place with its own number.
fn each(alloc: Global, making: Making, ks: &Ints, v: &Terms) -> Result<Vec<Part>, AllocError>
    requires { AllByRecursion IsNear ks.now }
    ensures { IfOk result (λ parts. parts.items ≡ made_of making ks.now v.now) }
{
    let mut parts = Vec::with_capacity(alloc, v.len())?;
    for (k, t) in ks.as_slice().iter().zip(v.as_slice()) {
        parts.push(making.part(*k, *t))?;
    }
    Ok(parts)
}

impl Making {
    ghost use Rattle.mn_sums.specs.Parts.{part_of};

    fn part(self, k: i64, t: Term) -> Part
        requires { IsNear k }
        ensures { result ≡ part_of self k t }
    {
        match self {
            Making::Weight => Part::Times(k, t),
            Making::Opposite => Part::Times(opposite(k), t),
            Making::Number => Part::Is(k, t),
        }
    }
}

// With one more place behind them.
fn followed(mut parts: Vec<Part>, weight: i64, x: Term) -> Result<Vec<Part>, AllocError>
    ensures { IfOk result (λ all. all.items ≡ parts.items ++ Times weight x ∷ []) }
{
    parts.push(Part::Times(weight, x))?;
    Ok(parts)
}
