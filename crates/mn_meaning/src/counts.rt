//! Counting values: how often one stands, how many differ, how many places agree.
ghost use Rattle.std.specs.Prelude.{◌≡◌, ◌↔◌, ℕ, pos, IsTrue};
ghost use Rattle.mn_model.specs.Domain.{Has, IsValue};
ghost use Rattle.mn_meaning.specs.Families.{occurrences, agreeing, differing, distinct_count, AllDiffer};
ghost use Rattle.mn_meaning.specs.Meaning.{values_at};

use crate::values::{Values, value_at};
use mn_model::{Ints, Term, Terms};

/// How many of the values are `k`.
pub fn occurrences<V: Values>(k: i64, v: &Terms, s: &V) -> i128
    requires valued { (n : ℕ) → IsValue (V.values s.now n) }
    ensures { result ≡ pos (occurrences k (values_at (V.values s.now) v.now)) }
{
    let mut count = 0;
    for t in v.as_slice() {
        if value_at(*t, s) == k {
            count += 1;
        }
    }
    count
}

/// At how many places the value is the number there.
pub fn agreeing<V: Values>(v: &Terms, ks: &Ints, s: &V) -> i128
    requires valued { (n : ℕ) → IsValue (V.values s.now n) }
    ensures { result ≡ pos (agreeing (values_at (V.values s.now) v.now) ks.now) }
{
    let mut count = 0;
    for (t, k) in v.as_slice().iter().zip(ks.as_slice()) {
        if value_at(*t, s) == *k {
            count += 1;
        }
    }
    count
}

/// At how many places two vectors have different values.
pub fn differing<V: Values>(v: &Terms, w: &Terms, s: &V) -> i128
    requires valued { (n : ℕ) → IsValue (V.values s.now n) }
    ensures { result
        ≡ pos (differing (values_at (V.values s.now) v.now) (values_at (V.values s.now) w.now)) }
{
    let mut count = 0;
    for (x, y) in v.as_slice().iter().zip(w.as_slice()) {
        let (a, b) = (value_at(*x, s), value_at(*y, s));
        if a != b {
            count += 1;
        }
    }
    count
}

/// Whether one of the values is `a`.
fn has_value<V: Values>(v: &[Term], a: i64, s: &V) -> bool
    requires valued { (n : ℕ) → IsValue (V.values s.now n) }
    ensures { IsTrue result ↔ Has (values_at (V.values s.now) v.now) a }
{
    for t in v {
        if value_at(*t, s) == a {
            return true;
        }
    }
    false
}

/// How many values there are, equal ones counted once: each at its last place.
pub fn distinct_count<V: Values>(v: &Terms, s: &V) -> i128
    requires valued { (n : ℕ) → IsValue (V.values s.now n) }
    ensures { result ≡ pos (distinct_count (values_at (V.values s.now) v.now)) }
{
    let terms = v.as_slice();
    let mut count = 0;
    for (i, t) in terms.iter().enumerate() {
        if !has_value(&terms[i + 1..], value_at(*t, s), s) {
            count += 1;
        }
    }
    count
}

/// Whether no two of the values are equal.
pub fn all_differ<V: Values>(v: &Terms, s: &V) -> bool
    requires valued { (n : ℕ) → IsValue (V.values s.now n) }
    ensures { IsTrue result ↔ AllDiffer (values_at (V.values s.now) v.now) }
{
    let terms = v.as_slice();
    for (i, t) in terms.iter().enumerate() {
        if has_value(&terms[i + 1..], value_at(*t, s), s) {
            return false;
        }
    }
    true
}
