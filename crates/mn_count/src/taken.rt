//! The values that places have alone.
ghost use Rattle.std.specs.Prelude.{◌≡◌, ℤ, ◌≤ℤ◌, ◌||◌, IfOk, false, true};
ghost use Rattle.std.specs.Ordering.{int_eq};
ghost use Rattle.mn_model.specs.Domain.{IsValue};
ghost use Rattle.mn_boxes.specs.Values.{members};

use mn_boxes::ValueSet;
use std::alloc::{AllocError, Global};
use std::marker::Model;

/// Values that are taken, of those from `low` to `high`.
#[derive(Drop)]
pub(crate) struct Taken {
    low: i64,
    high: i64,
    values: ValueSet,
}

impl Model for Taken {
    ghost use Rattle.mn_boxes.specs.Values.{IsCovered, Values};

    ghost Value = { Values };

    ghost view = { λ t. t.values };

    ghost invariant = { λ t. IsCovered t.values t.low × IsCovered t.values t.high };
}

impl Taken {
    /// None, of the values from `low` to `high`.
    pub(crate) fn new(alloc: Global, low: i64, high: i64) -> Result<Taken, AllocError>
        requires low { IsValue low }
        requires high { IsValue high }
        requires order { low ≤ℤ high }
    {
        let values = ValueSet::new(alloc, low, high)?;
        Ok(Taken { low, high, values })
    }

    /// Gives all back.
    pub(crate) fn clear(&mut self)
        ensures { (a : ℤ) → members self.new a ≡ false }
    {
        self.values.clear();
    }

    /// Whether `a` is taken.
    pub(crate) fn has(&self, a: i64) -> bool
        ensures { result ≡ members self.now a }
    {
        self.values.has(a)
    }

    /// Takes `a`. False where that isn't one of the values from the least to the greatest.
    pub(crate) fn insert(&mut self, a: i64) -> bool
        ensures { result ≡ true → (x : ℤ) → members self.new x ≡ (int_eq x a || members self.old x) }
    {
        if a < self.low || self.high < a {
            return false;
        }
        self.values.insert(a);
        true
    }

    /// The values.
    pub(crate) fn values(&self) -> &ValueSet
        ensures { result.now ≡ self.now }
    {
        &self.values
    }
}
