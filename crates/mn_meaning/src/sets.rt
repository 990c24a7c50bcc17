//! Values in sets, in intervals and in lists of tuples.
ghost use Rattle.std.specs.Prelude.{◌≡◌, ◌↔◌, ℕ, ◌≤ℤ◌, IsTrue};
ghost use Rattle.mn_model.specs.Domain.{Has, IsValue};
ghost use Rattle.mn_model.specs.Members.{HasMember};
ghost use Rattle.mn_meaning.specs.Families.{InIntervals, rows_of};
ghost use Rattle.mn_meaning.specs.Meaning.{tuples_of, values_at};

use crate::values::{Values, value_at};
use mn_model::{Ints, Tab, Term, Terms, Tuples};

/// Whether `a` is one of the numbers.
pub fn is_in(ks: &Ints, a: i64) -> bool
    ensures { IsTrue result ↔ Has ks.now a }
{
    ks.as_slice().contains(&a)
}

/// Whether `a` is neither below `lo` nor above `hi`.
pub fn is_between(a: i64, lo: i64, hi: i64) -> bool
    ensures { IsTrue result ↔ ((lo ≤ℤ a) × (a ≤ℤ hi)) }
{
    lo <= a && a <= hi
}

/// Whether `a` is in one of the intervals, which are pairs of ends.
pub fn in_intervals(ends: &Ints, a: i64) -> bool
    ensures { IsTrue result ↔ InIntervals ends.now a }
{
    let mut rest = ends.as_slice();
    while rest.len() >= 2 {
        let (first, others) = rest.split_at(2);
        let (lo, hi) = (first[0], first[1]);
        if is_between(a, lo, hi) {
            return true;
        }
        rest = others;
    }
    false
}

/// Whether the values are a row of numbers.
fn is_row<V: Values>(v: &[Term], row: &[i64], s: &V) -> bool
    requires valued { (n : ℕ) → IsValue (V.values s.now n) }
    ensures { IsTrue result ↔ (row.now ≡ values_at (V.values s.now) v.now) }
{
    if row.len() != v.len() {
        return false;
    }
    for (t, a) in v.iter().zip(row) {
        if value_at(*t, s) != *a {
            return false;
        }
    }
    true
}

/// Whether the values are one of the tuples that the cells make.
fn is_tuple<V: Values>(v: &Terms, arity: usize, cells: &[i64], s: &V) -> bool
    requires valued { (n : ℕ) → IsValue (V.values s.now n) }
    ensures { IsTrue result ↔ HasMember (rows_of arity cells.now) (values_at (V.values s.now) v.now) }
{
    if arity == 0 {
        return false;
    }
    let mut rest = cells;
    while rest.len() >= arity {
        let (row, others) = rest.split_at(arity);
        if is_row(v.as_slice(), row, s) {
            return true;
        }
        rest = others;
    }
    false
}

/// Whether the values are one of the tuples of a table.
pub fn is_tuple_of<V: Values>(v: &Terms, tab: &Tab, lists: &[Tuples], s: &V) -> bool
    requires valued { (n : ℕ) → IsValue (V.values s.now n) }
    ensures { IsTrue result ↔ HasMember (tuples_of lists.now tab.now) (values_at (V.values s.now) v.now) }
{
    match tab {
        Tab::Named(n) => match lists.get(*n as usize) {
            Some(list) => is_tuple(v, list.arity as usize, list.cells.as_slice(), s),
            None => false,
        },
        Tab::Here { arity, cells } => is_tuple(v, *arity as usize, cells.as_slice(), s),
    }
}
