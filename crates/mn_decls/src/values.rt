//! The values of a sparse domain as they are read: ascending, without repeats.
ghost use Rattle.std.specs.Prelude.{◌≡◌, ◌≤◌, ◌≤ℤ◌, ◌-ℤ◌, ◌+ℤ◌, pos, [], ◌++◌, length, take, drop, filter, int_le, int_lt, IfOk, OnOk};
ghost use Rattle.std.specs.List.{AllByRecursion};
ghost use Rattle.mn_model.specs.Domain.{Ascends, IsValue, stretch};
ghost use Rattle.mn_decls.specs.Variables.{with_range};

use mn_model::{Ints, NoMemory};
use std::alloc::Global;
use std::marker::Model;

/// Values of a model, ascending and without repeats. Contracts see the list.
#[derive(Drop)]
pub struct Values {
    items: Vec<i64>,
}

impl Model for Values {
    ghost use Rattle.std.specs.Prelude.{List, ℤ};
    ghost use Rattle.std.specs.List.{AllByRecursion};
    ghost use Rattle.mn_model.specs.Domain.{Ascends, IsValue};

    ghost Value = { List ℤ };

    ghost view = { λ v. v.items.items };

    ghost invariant = { λ v. Ascends v.items.items × AllByRecursion IsValue v.items.items };
}

/// How many of the values are less than `a`.
fn places_below(values: &[i64], a: i64) -> usize
    requires { Ascends values.now }
    ensures within { result ≤ length values.now }
    ensures below { filter (λ x. int_lt x a) values.now ≡ take result values.now }
    ensures others { filter (λ x. int_le a x) values.now ≡ drop result values.now }
{
    values.partition_point(|x| *x < a)
}

/// How many of the values are at most `a`.
fn places_to(values: &[i64], a: i64) -> usize
    requires ascends { Ascends values.now }
    requires value { IsValue a }
    ensures within { result ≤ length values.now }
    ensures above { filter (λ x. int_lt a x) values.now ≡ drop result values.now }
{
    places_below(values, a + 1)
}

/// How many values there are from `lo` to `hi`.
fn span(lo: i64, hi: i64) -> u64
    requires ordered { lo ≤ℤ hi }
    requires low { IsValue lo }
    requires high { IsValue hi }
    ensures { pos result ≡ (hi -ℤ lo) +ℤ pos 1 }
{
    hi.abs_diff(lo) + 1
}

/// Adds all numbers from `lo` to `hi` at the end.
fn push_all(items: &mut Vec<i64>, lo: i64, hi: i64) -> Result<(), NoMemory>
    requires { lo ≤ℤ hi }
    ensures { OnOk result (items.new.items ≡ items.old.items ++ stretch lo hi) }
{
    let mut value = lo;
    while value < hi {
        items.push(value)?;
        value += 1;
    }
    items.push(hi)?;
    Ok(())
}

/// A copy of the values from a place on.
fn copy_from(items: &Vec<i64>, place: usize) -> Result<Vec<i64>, NoMemory>
    requires { place ≤ length items.now.items }
    ensures { IfOk result (λ copy. copy.items ≡ drop place items.now.items) }
{
    Vec::from_slice(*items.allocator(), &items.as_slice()[place..])
}

/// Adds values at the end.
fn append(items: &mut Vec<i64>, more: &Vec<i64>) -> Result<(), NoMemory>
    ensures { OnOk result (items.new.items ≡ items.old.items ++ more.now.items) }
{
    items.extend_from_slice(more.as_slice())?;
    Ok(())
}

impl Values {
    /// No values.
    pub fn new(alloc: Global) -> Values
        ensures { result ≡ [] }
    {
        Values {
            items: Vec::new(alloc),
        }
    }

    /// How many values there are with all from `lo` to `hi`.
    pub fn size_with(&self, lo: i64, hi: i64) -> u64
        requires ordered { lo ≤ℤ hi }
        requires low { IsValue lo }
        requires high { IsValue hi }
        requires few { length self.now ≤ 65536 }
        ensures { result ≡ length (with_range self.now lo hi) }
    {
        let values = self.items.as_slice();
        let below = places_below(values, lo);
        let above = values.len() - places_to(values, hi);
        below as u64 + span(lo, hi) + above as u64
    }

    /// The values with all from `lo` to `hi`.
    pub fn with(self, lo: i64, hi: i64) -> Result<Values, NoMemory>
        requires ordered { lo ≤ℤ hi }
        requires low { IsValue lo }
        requires high { IsValue hi }
        ensures { IfOk result (λ values. values ≡ with_range self lo hi) }
    {
        let Values { mut items } = self;
        let below = places_below(items.as_slice(), lo);
        let to = places_to(items.as_slice(), hi);
        let above = copy_from(&items, to)?;
        items.truncate(below);
        push_all(&mut items, lo, hi)?;
        append(&mut items, &above)?;
        Ok(Values { items })
    }

    /// The values.
    pub fn into_ints(self) -> Ints
        ensures values { result ≡ self }
        ensures ascends { Ascends self }
        ensures valued { AllByRecursion IsValue self }
    {
        Ints::of(self.items)
    }
}
