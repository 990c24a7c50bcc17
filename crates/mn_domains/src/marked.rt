//! Sets whose values are marked by bits. The bit of a value `a` has the number `at + (a - lo)`.
ghost use Rattle.std.specs.Prelude.{◌≡◌, ℕ, ◌+◌, ◌-◌, ◌*◌, ◌^◌, ◌<◌, ◌≤◌, ℤ, pos, ◌+ℤ◌, ◌<ℤ◌, ◌≤ℤ◌, true, false, IsTrue, ◌↔◌, length, filter, int_le};
ghost use Rattle.std.specs.Int.{int_gap};
ghost use Rattle.std.specs.Ordering.{int_eq};
ghost use Rattle.mn_model.specs.Domain.{Has, IsValue};
ghost use Rattle.mn_boxes.specs.Values.{place_of};
ghost use Rattle.mn_domains.specs.Held.{AreEndsOf, IsRoom, IsRow, IsSpan, has_bit, marked};
ghost use Rattle.mn_domains.specs.Rows.{Spans};

use super::rows::{Row, place};
use super::shape::Ends;
use mn_boxes::bits::{count, is_set, next_set, previous_set};

/// The number of the bit of `a`.
pub fn bit_number(lo: i64, at: usize, a: i64) -> usize
    requires order { lo ≤ℤ a }
    requires small { at + int_gap lo a < 2 ^ 60 }
    ensures { result ≡ at + int_gap lo a }
{
    at + a.abs_diff(lo) as usize
}

/// The bits of the values from `from` to `to`.
pub fn row(lo: i64, at: usize, from: i64, to: i64) -> Row
    requires span { IsSpan lo to }
    requires low { lo ≤ℤ from }
    requires order { from ≤ℤ to }
    requires small { at + int_gap lo to < 2 ^ 60 }
    ensures spans { Spans result from to }
    ensures raise { at + result.raise ≡ place_of lo }
    ensures plain { result.full ≡ false }
    ensures from { result.from ≡ at + int_gap lo from }
    ensures to { result.to ≡ at + int_gap lo to }
{
    Row {
        from: bit_number(lo, at, from),
        to: bit_number(lo, at, to),
        raise: place(lo) - at,
        full: false,
    }
}

/// The value whose bit has this number.
fn value_at(lo: i64, at: usize, bit: usize) -> i64
    requires order { at ≤ bit }
    requires low { IsValue lo }
    requires small { bit < 2 ^ 60 }
    ensures { result ≡ lo +ℤ pos (bit - at) }
{
    lo + (bit - at) as i64
}

/// The least marked value from `from` on. `hi` is marked.
pub fn least_from(bits: &[u64], lo: i64, at: usize, from: i64, hi: i64) -> i64
    requires span { IsSpan lo hi }
    requires low { lo ≤ℤ from }
    requires order { from ≤ℤ hi }
    requires room { IsRoom (64 * length bits.now) (at + int_gap lo hi) }
    requires mark { has_bit bits.now lo at hi ≡ true }
    ensures from { from ≤ℤ result }
    ensures within { result ≤ℤ hi }
    ensures mark { has_bit bits.now lo at result ≡ true }
    ensures none { (a : ℤ) → from ≤ℤ a → a <ℤ result → has_bit bits.now lo at a ≡ false }
{
    let start = bit_number(lo, at, from);
    let end = bit_number(lo, at, hi);
    let found = next_set(bits, start, end);
    value_at(lo, at, found)
}

/// The greatest marked value up to `to`. `low` is marked.
pub fn greatest_to(bits: &[u64], lo: i64, at: usize, low: i64, to: i64) -> i64
    requires span { IsSpan lo to }
    requires low { lo ≤ℤ low }
    requires order { low ≤ℤ to }
    requires room { IsRoom (64 * length bits.now) (at + int_gap lo to) }
    requires mark { has_bit bits.now lo at low ≡ true }
    ensures from { low ≤ℤ result }
    ensures within { result ≤ℤ to }
    ensures mark { has_bit bits.now lo at result ≡ true }
    ensures none { (a : ℤ) → result <ℤ a → a ≤ℤ to → has_bit bits.now lo at a ≡ false }
{
    let start = bit_number(lo, at, low);
    let end = bit_number(lo, at, to);
    let found = previous_set(bits, end, start);
    value_at(lo, at, found)
}

/// Whether `a` is in the set.
pub fn has(bits: &[u64], lo: i64, at: usize, ends: Ends, a: i64) -> bool
    requires row { IsRow bits.now lo at ends }
    requires ordered { ends.lo ≤ℤ ends.hi }
    ensures { IsTrue result ↔ Has (marked bits.now lo at ends) a }
{
    ends.reach(a) && is_set(bits, bit_number(lo, at, a))
}

/// The set with `a` alone.
pub fn only(bits: &[u64], lo: i64, at: usize, ends: Ends, a: i64) -> Ends
    requires row { IsRow bits.now lo at ends }
    requires ordered { ends.lo ≤ℤ ends.hi }
    requires has { Has (marked bits.now lo at ends) a }
    ensures row { IsRow bits.now lo at result }
    ensures ends { AreEndsOf (marked bits.now lo at result) result }
    ensures values { marked bits.now lo at result ≡ filter (λ x. int_eq x a) (marked bits.now lo at ends) }
    ensures high { result.hi ≤ℤ ends.hi }
{
    Ends {
        lo: a,
        hi: a,
        size: 1,
        place: ends.place,
    }
}

/// The set without the values below `a`.
pub fn cut_low(bits: &[u64], lo: i64, at: usize, ends: Ends, a: i64) -> Ends
    requires row { IsRow bits.now lo at ends }
    requires ends { AreEndsOf (marked bits.now lo at ends) ends }
    requires low { ends.lo <ℤ a }
    requires high { a ≤ℤ ends.hi }
    ensures row { IsRow bits.now lo at result }
    ensures ends { AreEndsOf (marked bits.now lo at result) result }
    ensures values { marked bits.now lo at result ≡ filter (λ x. int_le a x) (marked bits.now lo at ends) }
    ensures high { result.hi ≡ ends.hi }
{
    let least = least_from(bits, lo, at, a, ends.hi);
    let from = bit_number(lo, at, ends.lo);
    let to = bit_number(lo, at, a);
    let lost = count(bits, from, to);
    Ends {
        lo: least,
        hi: ends.hi,
        size: ends.size - lost as u64,
        place: ends.place,
    }
}

/// The set without the values above `a`.
pub fn cut_high(bits: &[u64], lo: i64, at: usize, ends: Ends, a: i64) -> Ends
    requires row { IsRow bits.now lo at ends }
    requires ends { AreEndsOf (marked bits.now lo at ends) ends }
    requires low { ends.lo ≤ℤ a }
    requires high { a <ℤ ends.hi }
    ensures row { IsRow bits.now lo at result }
    ensures ends { AreEndsOf (marked bits.now lo at result) result }
    ensures values { marked bits.now lo at result ≡ filter (λ x. int_le x a) (marked bits.now lo at ends) }
    ensures low { result.lo ≡ ends.lo }
    ensures high { result.hi ≤ℤ ends.hi }
{
    let greatest = greatest_to(bits, lo, at, ends.lo, a);
    let from = bit_number(lo, at, a);
    let to = bit_number(lo, at, ends.hi);
    let lost = count(bits, from + 1, to + 1);
    Ends {
        lo: ends.lo,
        hi: greatest,
        size: ends.size - lost as u64,
        place: ends.place,
    }
}
