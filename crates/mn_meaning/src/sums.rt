//! Sums, products, quotients and what is left.
ghost use Rattle.std.specs.Prelude.{◌≡◌, ◌≢◌, ◌↔◌, ℕ, ◌+◌, ◌≤◌, ℤ, pos, neg_ℤ, ◌+ℤ◌, ◌-ℤ◌, ◌*ℤ◌, ◌≤ℤ◌, length, IsTrue};
ghost use Rattle.std.proofs.Common.{nat_abs};
ghost use Rattle.std.specs.List.{AllByRecursion};
ghost use Rattle.mn_model.specs.Domain.{IsValue};
ghost use Rattle.mn_model.specs.Lawful.{IsNear, IsNearTerm};
ghost use Rattle.mn_model.specs.declared.limits.TheConstants.{PLACES};
ghost use Rattle.mn_meaning.specs.Families.{sum_of, weighted_sum, quotient};
ghost use Rattle.mn_meaning.specs.Meaning.{values_at};

use crate::values::{Values, value_at};
use mn_model::{Ints, Terms};

/// The sum of the values.
pub fn sum<V: Values>(v: &Terms, s: &V) -> i128
    requires valued { (n : ℕ) → IsValue (V.values s.now n) }
    ensures { result ≡ sum_of (values_at (V.values s.now) v.now) }
{
    let mut sum = 0;
    for t in v.as_slice() {
        sum += i128::from(value_at(*t, s));
    }
    sum
}

/// The sum of each value times its weight.
pub fn weighted_sum<V: Values>(ks: &Ints, v: &Terms, s: &V) -> i128
    requires valued { (n : ℕ) → IsValue (V.values s.now n) }
    requires weights { AllByRecursion IsNear ks.now }
    requires places { AllByRecursion IsNearTerm v.now }
    requires short { length v.now ≤ PLACES + 1 }
    ensures { result ≡ weighted_sum ks.now (values_at (V.values s.now) v.now) }
{
    let mut sum = 0;
    for (k, t) in ks.as_slice().iter().zip(v.as_slice()) {
        sum += i128::from(*k) * i128::from(value_at(*t, s));
    }
    sum
}

/// Whether the number is at most another one and `k` together.
pub fn is_at_most(a: i64, b: i64, k: i64) -> bool
    ensures { IsTrue result ↔ a ≤ℤ (b +ℤ k) }
{
    i128::from(a) <= i128::from(b) + i128::from(k)
}

/// Whether the number is another one with its sign turned.
pub fn is_opposite(a: i64, b: i64) -> bool
    ensures { IsTrue result ↔ (a ≡ neg_ℤ b) }
{
    i128::from(a) == -i128::from(b)
}

/// Whether the number is the absolute value of another.
pub fn is_absolute(a: i64, b: i64) -> bool
    ensures { IsTrue result ↔ (a ≡ pos (nat_abs b)) }
{
    i128::from(a) == i128::from(b).abs()
}

/// Whether the number is the distance between two others.
pub fn is_distance(a: i64, b: i64, distance: i64) -> bool
    ensures { IsTrue result ↔ (distance ≡ pos (nat_abs (a -ℤ b))) }
{
    i128::from(distance) == (i128::from(a) - i128::from(b)).abs()
}

/// Whether the number is the product of two others.
pub fn is_product(a: i64, b: i64, product: i64) -> bool
    ensures { IsTrue result ↔ (product ≡ a *ℤ b) }
{
    i128::from(product) == i128::from(a) * i128::from(b)
}

/// The quotient, rounded down.
pub fn quotient(a: i64, b: i64) -> i128
    requires { b ≢ pos 0 }
    ensures { result ≡ quotient a b }
{
    let (a, b) = (i128::from(a), i128::from(b));
    if b < 0 {
        (-a).div_euclid(-b)
    } else {
        a.div_euclid(b)
    }
}

/// Whether the number is the quotient of two others, the second of which isn't 0.
pub fn is_quotient(a: i64, b: i64, q: i64) -> bool
    ensures { IsTrue result ↔ ((b ≢ pos 0) × (q ≡ quotient a b)) }
{
    b != 0 && i128::from(q) == quotient(a, b)
}

/// Whether the number is what the quotient of two others leaves, the second of which isn't 0.
pub fn is_remainder(a: i64, b: i64, r: i64) -> bool
    ensures { IsTrue result ↔ ((b ≢ pos 0) × (r ≡ a -ℤ b *ℤ quotient a b)) }
{
    b != 0 && i128::from(r) == i128::from(a) - i128::from(b) * quotient(a, b)
}
