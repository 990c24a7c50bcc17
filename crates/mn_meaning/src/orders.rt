//! Values in order: the greatest, the least, an entry, lexicographic order.
ghost use Rattle.std.specs.Prelude.{◌≡◌, ◌↔◌, ◌⊎◌, ℕ, IsTrue};
ghost use Rattle.mn_model.specs.Domain.{IsValue};
ghost use Rattle.mn_meaning.specs.Families.{IsGreatest, IsLeast, IsExtreme, IsWithin, IsEntry, IsBelow};
ghost use Rattle.mn_meaning.specs.Meaning.{values_at};

use crate::values::{Values, value_at};
use mn_model::Terms;

/// Whether `b` is at most `a` where `a` is to be the greatest, and else at least `a`.
fn is_within(greatest: bool, a: i64, b: i64) -> bool
    ensures { IsTrue result ↔ IsWithin greatest a b }
{
    if greatest { b <= a } else { a <= b }
}

/// Whether `a` is the greatest of the values where that is asked, and else the least.
fn is_extreme<V: Values>(greatest: bool, v: &Terms, a: i64, s: &V) -> bool
    requires valued { (n : ℕ) → IsValue (V.values s.now n) }
    ensures { IsTrue result ↔ IsExtreme greatest (values_at (V.values s.now) v.now) a }
{
    let mut found = false;
    for t in v.as_slice() {
        let b = value_at(*t, s);
        if !is_within(greatest, a, b) {
            return false;
        }
        found |= b == a;
    }
    found
}

/// Whether `a` is the greatest of the values.
pub fn is_greatest<V: Values>(v: &Terms, a: i64, s: &V) -> bool
    requires valued { (n : ℕ) → IsValue (V.values s.now n) }
    ensures { IsTrue result ↔ IsGreatest (values_at (V.values s.now) v.now) a }
{
    is_extreme(true, v, a, s)
}

/// Whether `a` is the least of the values.
pub fn is_least<V: Values>(v: &Terms, a: i64, s: &V) -> bool
    requires valued { (n : ℕ) → IsValue (V.values s.now n) }
    ensures { IsTrue result ↔ IsLeast (values_at (V.values s.now) v.now) a }
{
    is_extreme(false, v, a, s)
}

/// Whether `a` is the value at the index, counted from 0.
pub fn is_entry<V: Values>(v: &Terms, index: i128, a: i64, s: &V) -> bool
    requires valued { (n : ℕ) → IsValue (V.values s.now n) }
    ensures { IsTrue result ↔ IsEntry (values_at (V.values s.now) v.now) index a }
{
    0 <= index && index < v.len() as i128 && value_at(*v.get(index as usize), s) == a
}

/// Whether the first vector comes before the second in lexicographic order, or, where that is asked, is equal to it.
pub fn is_below<V: Values>(v: &Terms, w: &Terms, or_equal: bool, s: &V) -> bool
    requires valued { (n : ℕ) → IsValue (V.values s.now n) }
    ensures { IsTrue result
        ↔ (IsBelow (values_at (V.values s.now) v.now) (values_at (V.values s.now) w.now)
        ⊎ (IsTrue or_equal × (values_at (V.values s.now) v.now ≡ values_at (V.values s.now) w.now))) }
{
    for (x, y) in v.as_slice().iter().zip(w.as_slice()) {
        let (a, b) = (value_at(*x, s), value_at(*y, s));
        if a != b {
            return a < b;
        }
    }
    or_equal && v.len() == w.len()
}
