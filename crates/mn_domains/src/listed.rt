//! Sets that are a part of listed values.
ghost use Rattle.std.specs.Prelude.{◌≡◌, ◌+◌, ◌<◌, ◌≤◌, ◌<ℤ◌, ◌≤ℤ◌, IsTrue, ◌↔◌, length, take, drop, filter, int_le, int_lt, ◌&&◌};
ghost use Rattle.std.specs.Ordering.{int_eq};
ghost use Rattle.mn_model.specs.Domain.{Ascends, Has, IsFirst};
ghost use Rattle.mn_boxes.specs.Sets.{greatest, least};
ghost use Rattle.mn_domains.specs.Held.{AreEndsOf, part_of};
ghost use Rattle.mn_domains.specs.Rows.{passes};

use super::shape::Ends;
use mn_boxes::ValueSet;

/// The part that a set is.
pub fn part(listed: &[i64], ends: Ends) -> &[i64]
    requires { ends.place + ends.size ≤ length listed.now }
    ensures { result.now ≡ part_of listed.now ends }
{
    &listed[ends.place..ends.place + ends.size as usize]
}

/// How many of the values are less than `a`.
pub fn places_below(values: &[i64], a: i64) -> usize
    requires { Ascends values.now }
    ensures within { result ≤ length values.now }
    ensures below { filter (λ x. int_lt x a) values.now ≡ take result values.now }
    ensures others { filter (λ x. int_le a x) values.now ≡ drop result values.now }
{
    values.partition_point(|x| *x < a)
}

/// Whether `a` is in the set.
pub fn has(listed: &[i64], ends: Ends, a: i64) -> bool
    requires room { ends.place + ends.size ≤ length listed.now }
    requires ascends { Ascends (part_of listed.now ends) }
    ensures { IsTrue result ↔ Has (part_of listed.now ends) a }
{
    let values = part(listed, ends);
    let skipped = places_below(values, a);
    skipped < values.len() && values[skipped] == a
}

/// The least value that is at least `a`.
pub fn least_from(listed: &[i64], ends: Ends, a: i64) -> i64
    requires room { ends.place + ends.size ≤ length listed.now }
    requires ascends { Ascends (part_of listed.now ends) }
    requires ends { AreEndsOf (part_of listed.now ends) ends }
    requires high { a ≤ℤ ends.hi }
    ensures { IsFirst result (filter (λ x. int_le a x) (part_of listed.now ends)) }
{
    let skipped = places_below(part(listed, ends), a);
    listed[ends.place + skipped]
}

/// The set without the values below `a`.
pub fn cut_low(listed: &[i64], ends: Ends, a: i64) -> Ends
    requires room { ends.place + ends.size ≤ length listed.now }
    requires ascends { Ascends (part_of listed.now ends) }
    requires ends { AreEndsOf (part_of listed.now ends) ends }
    requires low { ends.lo <ℤ a }
    requires high { a ≤ℤ ends.hi }
    ensures ends { AreEndsOf (part_of listed.now result) result }
    ensures values { part_of listed.now result ≡ filter (λ x. int_le a x) (part_of listed.now ends) }
    ensures from { ends.place ≤ result.place }
    ensures to { result.place + result.size ≡ ends.place + ends.size }
{
    let skipped = places_below(part(listed, ends), a);
    let place = ends.place + skipped;
    Ends {
        lo: listed[place],
        hi: ends.hi,
        size: ends.size - skipped as u64,
        place,
    }
}

/// The set without the values above `a`.
pub fn cut_high(listed: &[i64], ends: Ends, a: i64) -> Ends
    requires room { ends.place + ends.size ≤ length listed.now }
    requires ascends { Ascends (part_of listed.now ends) }
    requires ends { AreEndsOf (part_of listed.now ends) ends }
    requires low { ends.lo ≤ℤ a }
    requires high { a <ℤ ends.hi }
    ensures ends { AreEndsOf (part_of listed.now result) result }
    ensures values { part_of listed.now result ≡ filter (λ x. int_le x a) (part_of listed.now ends) }
    ensures place { result.place ≡ ends.place }
    ensures size { result.size ≤ ends.size }
{
    let size = places_below(part(listed, ends), a + 1);
    Ends {
        lo: ends.lo,
        hi: listed[ends.place + size - 1],
        size: size as u64,
        place: ends.place,
    }
}

/// The set with `a` alone.
pub fn only(listed: &[i64], ends: Ends, a: i64) -> Ends
    requires room { ends.place + ends.size ≤ length listed.now }
    requires ascends { Ascends (part_of listed.now ends) }
    requires ends { AreEndsOf (part_of listed.now ends) ends }
    requires has { Has (part_of listed.now ends) a }
    ensures ends { AreEndsOf (part_of listed.now result) result }
    ensures values { part_of listed.now result ≡ filter (λ x. int_eq x a) (part_of listed.now ends) }
    ensures from { ends.place ≤ result.place }
    ensures to { result.place + result.size ≤ ends.place + ends.size }
{
    let skipped = places_below(part(listed, ends), a);
    Ends {
        lo: a,
        hi: a,
        size: 1,
        place: ends.place + skipped,
    }
}

/// Whether `a` is at least `from` and in the set, or not in it where `wanted` is false.
fn is_passing(set: &ValueSet, wanted: bool, from: i64, a: i64) -> bool
    ensures { result ≡ (int_le from a && passes set.now wanted a) }
{
    if a < from {
        return false;
    }
    let has = set.has(a);
    if wanted { has } else { !has }
}

/// The least of the values that are at least `from` and pass.
pub fn first_passing(values: &[i64], from: i64, set: &ValueSet, wanted: bool) -> Option<i64>
    requires { Ascends values.now }
    ensures { result ≡ least (filter (λ x. int_le from x && passes set.now wanted x) values.now) }
{
    for i in 0..values.len() {
        let value = values[i];
        if is_passing(set, wanted, from, value) {
            return Some(value);
        }
    }
    None
}

/// The greatest of the values that are at least `from` and pass.
pub fn last_passing(values: &[i64], from: i64, set: &ValueSet, wanted: bool) -> Option<i64>
    requires { Ascends values.now }
    ensures { result ≡ greatest (filter (λ x. int_le from x && passes set.now wanted x) values.now) }
{
    let mut behind = values.len();
    while 0 < behind {
        behind -= 1;
        let value = values[behind];
        if is_passing(set, wanted, from, value) {
            return Some(value);
        }
    }
    None
}
