//! Whether a constraint holds.
ghost use Rattle.std.specs.Prelude.{◌↔◌, ℕ, ◌+◌, ◌≤◌, [], length, IsTrue};
ghost use Rattle.std.specs.List.{AllByRecursion};
ghost use Rattle.mn_model.specs.Domain.{IsValue};
ghost use Rattle.mn_model.specs.Lawful.{HasNearConstants, HaveNearConstants, IsMeant};
ghost use Rattle.mn_model.specs.Parts.{vectors, vectors_of};
ghost use Rattle.mn_model.specs.declared.limits.TheConstants.{PLACES};
ghost use Rattle.mn_meaning.specs.Meaning.{EachHolds, Holds, HoldsAll, HoldsOver, SomeHolds};

use crate::counts::{agreeing, all_differ, differing, distinct_count, occurrences};
use crate::orders::{is_below, is_entry, is_greatest, is_least};
use crate::sets::{in_intervals, is_between, is_in, is_tuple_of};
use crate::sums::{
    is_absolute, is_at_most, is_distance, is_opposite, is_product, is_quotient, is_remainder, sum,
    weighted_sum,
};
use crate::values::{Assigned, Values, value_at};
use mn_model::{Con, Cons, Instance, Tuples};

/// Whether the constraint holds, beside these tuple lists.
#[cycle(meeting)]
fn meets<V: Values>(con: &Con, s: &V, lists: &[Tuples]) -> bool
    requires near { HasNearConstants con.now }
    requires short { AllByRecursion (λ v. length v ≤ PLACES + 1) (vectors con.now) }
    requires valued { (n : ℕ) → IsValue (V.values s.now n) }
    ensures { IsTrue result ↔ HoldsOver lists.now (V.values s.now) con.now }
{
    match con {
        Con::Eq(x, y) => value_at(*x, s) == value_at(*y, s),
        Con::Diseq(x, y) => value_at(*x, s) != value_at(*y, s),
        Con::Ineq(x, y, k) => is_at_most(value_at(*x, s), value_at(*y, s), *k),
        Con::Watchless(x, y) => value_at(*x, s) < value_at(*y, s),
        Con::Minuseq(x, y) => is_opposite(value_at(*x, s), value_at(*y, s)),
        Con::Abs(x, y) => is_absolute(value_at(*x, s), value_at(*y, s)),
        Con::Difference(x, y, z) => is_distance(value_at(*x, s), value_at(*y, s), value_at(*z, s)),
        Con::Product(x, y, z) => is_product(value_at(*x, s), value_at(*y, s), value_at(*z, s)),
        Con::Div(x, y, z) => is_quotient(value_at(*x, s), value_at(*y, s), value_at(*z, s)),
        Con::Modulo(x, y, z) => is_remainder(value_at(*x, s), value_at(*y, s), value_at(*z, s)),
        Con::Max(v, x) => is_greatest(v, value_at(*x, s), s),
        Con::Min(v, x) => is_least(v, value_at(*x, s), s),
        Con::Sumleq(v, x) => sum(v, s) <= i128::from(value_at(*x, s)),
        Con::Sumgeq(v, x) => sum(v, s) >= i128::from(value_at(*x, s)),
        Con::Weightedsumleq(ks, v, x) => weighted_sum(ks, v, s) <= i128::from(value_at(*x, s)),
        Con::Weightedsumgeq(ks, v, x) => weighted_sum(ks, v, s) >= i128::from(value_at(*x, s)),
        Con::Watchsumleq(v, k) => sum(v, s) <= i128::from(*k),
        Con::Watchsumgeq(v, k) => sum(v, s) >= i128::from(*k),
        Con::Litsumgeq(v, ks, k) => agreeing(v, ks, s) >= i128::from(*k),
        Con::Element(v, x, y) => is_entry(v, i128::from(value_at(*x, s)), value_at(*y, s), s),
        Con::Watchelement(v, x, y) => is_entry(v, i128::from(value_at(*x, s)), value_at(*y, s), s),
        Con::ElementOne(v, x, y) => is_entry(
            v,
            i128::from(value_at(*x, s)) - 1,
            value_at(*y, s),
            s,
        ),
        Con::WatchelementOne(v, x, y) => {
            is_entry(v, i128::from(value_at(*x, s)) - 1, value_at(*y, s), s)
        }
        Con::Table(v, tab) => is_tuple_of(v, tab, lists, s),
        Con::Negativetable(v, tab) => !is_tuple_of(v, tab, lists, s),
        Con::Alldiff(v) => all_differ(v, s),
        Con::Lexleq(v, w) => is_below(v, w, true, s),
        Con::Lexless(v, w) => is_below(v, w, false, s),
        Con::Watchvecneq(v, w) => differing(v, w, s) >= 1,
        Con::Hamming(v, w, k) => differing(v, w, s) >= i128::from(*k),
        Con::Occurrence(v, k, x) => occurrences(*k, v, s) == i128::from(value_at(*x, s)),
        Con::Occurrenceleq(v, k, most) => occurrences(*k, v, s) <= i128::from(*most),
        Con::Occurrencegeq(v, k, least) => occurrences(*k, v, s) >= i128::from(*least),
        Con::Nvalueleq(v, x) => distinct_count(v, s) <= i128::from(value_at(*x, s)),
        Con::WLiteral(x, k) => value_at(*x, s) == *k,
        Con::WNotliteral(x, k) => value_at(*x, s) != *k,
        Con::WInset(x, ks) => is_in(ks, value_at(*x, s)),
        Con::WNotinset(x, ks) => !is_in(ks, value_at(*x, s)),
        Con::WInrange(x, lo, hi) => is_between(value_at(*x, s), *lo, *hi),
        Con::WNotinrange(x, lo, hi) => !is_between(value_at(*x, s), *lo, *hi),
        Con::WInintervalset(x, ends) => in_intervals(ends, value_at(*x, s)),
        Con::Always => true,
        Con::Never => false,
        Con::WatchedOr(cs) => some_meets(cs, s, lists),
        Con::WatchedAnd(cs) => each_meets(cs, s, lists),
        Con::Reify(part, r) => (value_at(*r, s) == 1) == meets(part.get(), s, lists),
        Con::Reifyimply(part, r) => value_at(*r, s) != 1 || meets(part.get(), s, lists),
        Con::Negated(part) => !meets(part.get(), s, lists),
    }
}

/// Whether some of the constraints hold.
#[cycle(meeting)]
fn some_meets<V: Values>(cs: &Cons, s: &V, lists: &[Tuples]) -> bool
    requires near { HaveNearConstants cs.now }
    requires short { AllByRecursion (λ v. length v ≤ PLACES + 1) (vectors_of cs.now) }
    requires valued { (n : ℕ) → IsValue (V.values s.now n) }
    ensures { IsTrue result ↔ SomeHolds lists.now (V.values s.now) cs.now }
{
    let mut rest = cs;
    while let Cons::More(first, others) = rest {
        if meets(first.get(), s, lists) {
            return true;
        }
        rest = others.get();
    }
    false
}

/// Whether all of the constraints hold.
#[cycle(meeting)]
fn each_meets<V: Values>(cs: &Cons, s: &V, lists: &[Tuples]) -> bool
    requires near { HaveNearConstants cs.now }
    requires short { AllByRecursion (λ v. length v ≤ PLACES + 1) (vectors_of cs.now) }
    requires valued { (n : ℕ) → IsValue (V.values s.now n) }
    ensures { IsTrue result ↔ EachHolds lists.now (V.values s.now) cs.now }
{
    let mut rest = cs;
    while let Cons::More(first, others) = rest {
        if !meets(first.get(), s, lists) {
            return false;
        }
        rest = others.get();
    }
    true
}

/// Whether the constraint, which names no tuple list, holds where `s` tells the value of each variable.
pub fn holds_over<V: Values>(con: &Con, s: &V) -> bool
    requires meant { IsMeant [] con.now }
    requires valued { (n : ℕ) → IsValue (V.values s.now n) }
    ensures { IsTrue result ↔ HoldsOver [] (V.values s.now) con.now }
{
    meets(con, s, &[])
}

/// Whether the constraint holds beside these tuple lists, where `s` tells the value of each variable.
pub fn holds_beside<V: Values>(con: &Con, s: &V, lists: &[Tuples]) -> bool
    requires meant { IsMeant lists.now con.now }
    requires valued { (n : ℕ) → IsValue (V.values s.now n) }
    ensures { IsTrue result ↔ HoldsOver lists.now (V.values s.now) con.now }
{
    meets(con, s, lists)
}

/// Whether the constraint holds under the assignment, which has the value of each variable at its number, and 0 of
/// those that it doesn't reach. The tuple lists are those of the instance.
pub fn holds(inst: &Instance, con: &Con, s: &[i64]) -> bool
    requires meant { IsMeant inst.now.tuples con.now }
    requires valued { AllByRecursion IsValue s.now }
    ensures { IsTrue result ↔ Holds inst.now.tuples s.now con.now }
{
    meets(con, &Assigned::new(s), inst.tuples())
}

/// Whether all constraints of the instance hold under the assignment.
pub fn checks(inst: &Instance, s: &[i64]) -> bool
    requires valued { AllByRecursion IsValue s.now }
    ensures { IsTrue result ↔ HoldsAll inst.now.tuples inst.now.cons s.now }
{
    inst.lawful();
    for con in inst.cons() {
        if !holds(inst, con, s) {
            return false;
        }
    }
    true
}
