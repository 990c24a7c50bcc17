//! How one set is held, and which ends it has after a change.
ghost use Rattle.std.specs.Prelude.{◌≡◌, ◌*◌, ◌^◌, ◌<◌, ◌≤◌, IfSome, ◌<ℤ◌, ◌≤ℤ◌, IsTrue, ◌↔◌, length, filter, int_le, int_lt, ℤ, ◌⊎◌, ◌&&◌, true};
ghost use Rattle.std.specs.Ordering.{int_eq};
ghost use Rattle.mn_model.specs.Domain.{Has, IsFirst, IsValue, stretch};
ghost use Rattle.mn_boxes.specs.Sets.{MayGo, greatest, least};
ghost use Rattle.mn_boxes.specs.Values.{IsAsWide, IsCovered, members};
ghost use Rattle.mn_domains.specs.Changes.{is_not};
ghost use Rattle.mn_domains.specs.Rows.{TellsMarks, TellsRow, passes};
ghost use Rattle.mn_domains.specs.Held.{AreEndsOf, IsFull, IsHeld, IsShape, IsWithin, TellsBit, values_held, variable_held};

use super::rows::{Row, stretch_row};
use super::{listed as parts, marked};
use mn_boxes::ValueSet;

/// How the set of a variable is held.
#[derive(Clone, Copy, Debug, PartialEq, Eq)]
pub enum Shape {
    /// All values between the two ends. These are the declared ones.
    Stretch(i64, i64),
    /// A part of the listed values from the first place up to the second.
    Listed(usize, usize),
    /// Those values between the two ends whose bits are set. The bit of the lower declared end has this number.
    Bits(i64, i64, usize),
}

/// The least and the greatest value of a set, and how many there are.
#[derive(Clone, Copy, Debug, PartialEq, Eq)]
pub struct Ends {
    pub lo: i64,
    pub hi: i64,
    pub size: u64,
    /// Of a listed set: where its least value stands.
    pub place: usize,
}

impl Ends {
    /// Whether `a` is at one of the ends or between them.
    pub fn reach(&self, a: i64) -> bool
        ensures { IsTrue result ↔ ((self.now.lo ≤ℤ a) × (a ≤ℤ self.now.hi)) }
    {
        self.lo <= a && a <= self.hi
    }

    /// Whether both ends are `a`.
    pub fn are(&self, a: i64) -> bool
        ensures { IsTrue result ↔ ((self.now.lo ≡ a) × (self.now.hi ≡ a)) }
    {
        self.lo == a && self.hi == a
    }
}

/// All values from `lo` to `hi`.
pub fn stretched(lo: i64, hi: i64) -> Ends
    requires ordered { lo ≤ℤ hi }
    requires low { IsValue lo }
    requires high { IsValue hi }
    ensures ends { AreEndsOf (stretch lo hi) result }
    ensures lo { result.lo ≡ lo }
    ensures hi { result.hi ≡ hi }
    ensures few { result.size ≤ 2 ^ 32 }
{
    Ends {
        lo,
        hi,
        size: hi.abs_diff(lo) + 1,
        place: 0,
    }
}

/// All that is declared.
pub fn full(listed: &[i64], shape: Shape) -> Ends
    requires { IsShape listed.now (2 ^ 60) shape }
    ensures full { IsFull listed.now shape result }
    ensures few { result.size ≤ 2 ^ 32 }
{
    match shape {
        Shape::Stretch(lo, hi) => stretched(lo, hi),
        Shape::Bits(lo, hi, _) => stretched(lo, hi),
        Shape::Listed(from, to) => Ends {
            lo: listed[from],
            hi: listed[to - 1],
            size: (to - from) as u64,
            place: from,
        },
    }
}

/// Whether `a` is in the set.
pub fn has(listed: &[i64], bits: &[u64], shape: Shape, ends: Ends, a: i64) -> bool
    requires shape { IsShape listed.now (64 * length bits.now) shape }
    requires held { IsHeld listed.now bits.now shape ends }
    ensures { IsTrue result ↔ Has (values_held listed.now bits.now shape ends) a }
{
    match shape {
        Shape::Stretch(..) => ends.reach(a),
        Shape::Listed(..) => parts::has(listed, ends, a),
        Shape::Bits(lo, _, at) => marked::has(bits, lo, at, ends, a),
    }
}

/// The set without the values below `a`.
pub fn cut_low(listed: &[i64], bits: &[u64], shape: Shape, ends: Ends, a: i64) -> Ends
    requires shape { IsShape listed.now (64 * length bits.now) shape }
    requires held { IsHeld listed.now bits.now shape ends }
    requires high { a ≤ℤ ends.hi }
    ensures held { IsHeld listed.now bits.now shape result }
    ensures values { values_held listed.now bits.now shape result ≡ filter (λ x. int_le a x) (values_held listed.now bits.now shape ends) }
{
    if a <= ends.lo {
        return ends;
    }
    match shape {
        Shape::Stretch(..) => stretched(a, ends.hi),
        Shape::Listed(..) => parts::cut_low(listed, ends, a),
        Shape::Bits(lo, _, at) => marked::cut_low(bits, lo, at, ends, a),
    }
}

/// The set without the values above `a`.
pub fn cut_high(listed: &[i64], bits: &[u64], shape: Shape, ends: Ends, a: i64) -> Ends
    requires shape { IsShape listed.now (64 * length bits.now) shape }
    requires held { IsHeld listed.now bits.now shape ends }
    requires low { ends.lo ≤ℤ a }
    ensures held { IsHeld listed.now bits.now shape result }
    ensures values { values_held listed.now bits.now shape result ≡ filter (λ x. int_le x a) (values_held listed.now bits.now shape ends) }
{
    if ends.hi <= a {
        return ends;
    }
    match shape {
        Shape::Stretch(..) => stretched(ends.lo, a),
        Shape::Listed(..) => parts::cut_high(listed, ends, a),
        Shape::Bits(lo, _, at) => marked::cut_high(bits, lo, at, ends, a),
    }
}

/// The set without `a`, which isn't between the ends and isn't its only value.
pub fn without(listed: &[i64], bits: &[u64], shape: Shape, ends: Ends, a: i64) -> Ends
    requires shape { IsShape listed.now (64 * length bits.now) shape }
    requires held { IsHeld listed.now bits.now shape ends }
    requires others { ends.lo ≡ a → ends.hi ≡ a → ⊥ }
    requires outer { ends.lo <ℤ a → a <ℤ ends.hi → Has (values_held listed.now bits.now shape ends) a → ⊥ }
    ensures held { IsHeld listed.now bits.now shape result }
    ensures values { values_held listed.now bits.now shape result ≡ filter (is_not a) (values_held listed.now bits.now shape ends) }
{
    if a == ends.lo {
        return cut_low(listed, bits, shape, ends, a + 1);
    }
    if a == ends.hi {
        return cut_high(listed, bits, shape, ends, a - 1);
    }
    ends
}

/// The bit of a value strictly between the ends of a marked set. Other sets have no such bits.
pub fn inner_bit(listed: &[i64], bits: &[u64], shape: Shape, ends: Ends, a: i64) -> Option<usize>
    requires shape { IsShape listed.now (64 * length bits.now) shape }
    requires within { IsWithin shape ends }
    ensures bit { TellsBit shape ends a result }
    ensures room { IfSome result (λ bit. bit < 64 * length bits.now) }
{
    match shape {
        Shape::Bits(lo, _, at) if ends.lo < a && a < ends.hi => {
            Some(marked::bit_number(lo, at, a))
        }
        _ => None,
    }
}

/// Whether `a` alone may be taken out of the set.
pub fn may_go(listed: &[i64], bits: &[u64], shape: Shape, ends: Ends, a: i64) -> bool
    requires shape { IsShape listed.now (64 * length bits.now) shape }
    requires held { IsHeld listed.now bits.now shape ends }
    ensures { IsTrue result ↔ MayGo (variable_held listed.now shape) (values_held listed.now bits.now shape ends) a }
{
    if a == ends.lo || a == ends.hi {
        return true;
    }
    match shape {
        Shape::Stretch(..) | Shape::Listed(..) => !has(listed, bits, shape, ends, a),
        Shape::Bits(..) => true,
    }
}

/// The set with `a` alone.
pub fn only(listed: &[i64], bits: &[u64], shape: Shape, ends: Ends, a: i64) -> Ends
    requires shape { IsShape listed.now (64 * length bits.now) shape }
    requires held { IsHeld listed.now bits.now shape ends }
    requires has { Has (values_held listed.now bits.now shape ends) a }
    ensures held { IsHeld listed.now bits.now shape result }
    ensures values { values_held listed.now bits.now shape result ≡ filter (λ x. int_eq x a) (values_held listed.now bits.now shape ends) }
{
    match shape {
        Shape::Stretch(..) => stretched(a, a),
        Shape::Listed(..) => parts::only(listed, ends, a),
        Shape::Bits(lo, _, at) => marked::only(bits, lo, at, ends, a),
    }
}

/// The least value that is at least `a`.
pub fn least_from(listed: &[i64], bits: &[u64], shape: Shape, ends: Ends, a: i64) -> i64
    requires shape { IsShape listed.now (64 * length bits.now) shape }
    requires held { IsHeld listed.now bits.now shape ends }
    requires low { ends.lo ≤ℤ a }
    requires high { a ≤ℤ ends.hi }
    ensures { IsFirst result (filter (λ x. int_le a x) (values_held listed.now bits.now shape ends)) }
{
    match shape {
        Shape::Stretch(..) => a,
        Shape::Listed(..) => parts::least_from(listed, ends, a),
        Shape::Bits(lo, _, at) => marked::least_from(bits, lo, at, a, ends.hi),
    }
}

/// The least value that is greater than `a`.
pub fn next(listed: &[i64], bits: &[u64], shape: Shape, ends: Ends, a: i64) -> Option<i64>
    requires shape { IsShape listed.now (64 * length bits.now) shape }
    requires held { IsHeld listed.now bits.now shape ends }
    ensures { result ≡ least (filter (λ x. int_lt a x) (values_held listed.now bits.now shape ends)) }
{
    if a < ends.lo {
        return Some(ends.lo);
    }
    if ends.hi <= a {
        return None;
    }
    Some(least_from(listed, bits, shape, ends, a + 1))
}

/// The bits of the values from `from` to the greatest one. A listed set has none.
fn row_from(listed: &[i64], bits: &[u64], shape: Shape, ends: Ends, from: i64) -> Option<Row>
    requires shape { IsShape listed.now (64 * length bits.now) shape }
    requires held { IsHeld listed.now bits.now shape ends }
    requires low { ends.lo ≤ℤ from }
    requires high { from ≤ℤ ends.hi }
    ensures { TellsRow listed.now bits.now shape ends from result }
{
    match shape {
        Shape::Stretch(..) => Some(stretch_row(from, ends.hi)),
        Shape::Listed(..) => None,
        Shape::Bits(lo, _, at) => Some(marked::row(lo, at, from, ends.hi)),
    }
}

/// The bits of the values of a marked set.
pub fn marked_row(listed: &[i64], bits: &[u64], shape: Shape, ends: Ends) -> Option<Row>
    requires shape { IsShape listed.now (64 * length bits.now) shape }
    requires held { IsHeld listed.now bits.now shape ends }
    ensures { TellsMarks bits.now shape ends result }
{
    match shape {
        Shape::Stretch(..) | Shape::Listed(..) => None,
        Shape::Bits(lo, _, at) => Some(marked::row(lo, at, ends.lo, ends.hi)),
    }
}

/// The least value that is at least `from` and in the other set, or not in it where `wanted` is false.
fn first_passing(
    listed: &[i64],
    bits: &[u64],
    shape: Shape,
    ends: Ends,
    from: i64,
    set: &ValueSet,
    wanted: bool,
) -> Option<i64>
    requires shape { IsShape listed.now (64 * length bits.now) shape }
    requires held { IsHeld listed.now bits.now shape ends }
    requires low { ends.lo ≤ℤ from }
    requires high { from ≤ℤ ends.hi }
    ensures { result ≡ least (filter (λ x. int_le from x && passes set.now wanted x) (values_held listed.now bits.now shape ends)) }
{
    match row_from(listed, bits, shape, ends, from) {
        Some(row) => row.first_value(bits, set, wanted),
        None => parts::first_passing(parts::part(listed, ends), from, set, wanted),
    }
}

/// The same, wherever `from` is.
pub fn next_passing(
    listed: &[i64],
    bits: &[u64],
    shape: Shape,
    ends: Ends,
    from: i64,
    set: &ValueSet,
    wanted: bool,
) -> Option<i64>
    requires shape { IsShape listed.now (64 * length bits.now) shape }
    requires held { IsHeld listed.now bits.now shape ends }
    ensures { result ≡ least (filter (λ x. int_le from x && passes set.now wanted x) (values_held listed.now bits.now shape ends)) }
{
    if ends.hi < from {
        return None;
    }
    if from < ends.lo {
        return first_passing(listed, bits, shape, ends, ends.lo, set, wanted);
    }
    first_passing(listed, bits, shape, ends, from, set, wanted)
}

/// The greatest of these values.
pub fn last_passing(
    listed: &[i64],
    bits: &[u64],
    shape: Shape,
    ends: Ends,
    from: i64,
    set: &ValueSet,
    wanted: bool,
) -> Option<i64>
    requires shape { IsShape listed.now (64 * length bits.now) shape }
    requires held { IsHeld listed.now bits.now shape ends }
    requires low { ends.lo ≤ℤ from }
    requires high { from ≤ℤ ends.hi }
    ensures { result ≡ greatest (filter (λ x. int_le from x && passes set.now wanted x) (values_held listed.now bits.now shape ends)) }
{
    match row_from(listed, bits, shape, ends, from) {
        Some(row) => row.last_value(bits, set, wanted),
        None => parts::last_passing(parts::part(listed, ends), from, set, wanted),
    }
}

/// The set without the values below `lo` and those above `hi`.
pub fn between(listed: &[i64], bits: &[u64], shape: Shape, ends: Ends, lo: i64, hi: i64) -> Ends
    requires shape { IsShape listed.now (64 * length bits.now) shape }
    requires held { IsHeld listed.now bits.now shape ends }
    requires low { Has (values_held listed.now bits.now shape ends) lo }
    requires order { lo ≤ℤ hi }
    requires high { Has (values_held listed.now bits.now shape ends) hi }
    ensures held { IsHeld listed.now bits.now shape result }
    ensures values { values_held listed.now bits.now shape result ≡ filter (λ x. int_le x hi) (filter (λ x. int_le lo x) (values_held listed.now bits.now shape ends)) }
{
    let rest = cut_low(listed, bits, shape, ends, lo);
    cut_high(listed, bits, shape, rest, hi)
}

/// Puts the values into the other set.
pub fn gather(listed: &[i64], bits: &[u64], shape: Shape, ends: Ends, into: &mut ValueSet)
    requires shape { IsShape listed.now (64 * length bits.now) shape }
    requires held { IsHeld listed.now bits.now shape ends }
    requires covered { (a : ℤ) → Has (values_held listed.now bits.now shape ends) a → IsCovered into.old a }
    ensures wide { IsAsWide into.old into.new }
    ensures members { (a : ℤ) → IsTrue (members into.new a) ↔ (IsTrue (members into.old a) ⊎ Has (values_held listed.now bits.now shape ends) a) }
{
    if let Shape::Stretch(..) = shape {
        into.insert_span(ends.lo, ends.hi);
        return;
    }
    let mut value = ends.lo;
    into.insert(value);
    while value < ends.hi {
        value = least_from(listed, bits, shape, ends, value + 1);
        into.insert(value);
    }
}
