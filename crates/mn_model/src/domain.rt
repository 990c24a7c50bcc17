//! The values that a variable is declared with.
ghost use Rattle.std.specs.Prelude.{◌≡◌, ◌<◌, ◌≤ℤ◌, ◌↔◌, IsTrue, [], length, slice_get, Some, IfOk};
ghost use Rattle.std.specs.List.{AllByRecursion};
ghost use Rattle.mn_model.specs.Domain.{Ascends, Has, IsDomain, IsFirst, IsLast, IsValue, stretch};

use super::Ints;
use std::alloc::{AllocError, Global};
use std::marker::Model;

/// The values that a variable was declared with. Contracts see them as an ascending list.
#[derive(Debug, Drop)]
pub struct Domain {
    lo: i64,
    hi: i64,
    /// The values that were written one by one, ascending. Empty for a stretch.
    listed: Ints,
}

impl Model for Domain {
    ghost use Rattle.std.specs.Prelude.{List, ℤ};
    ghost use Rattle.mn_model.specs.Domain.{values_of, IsDomainFrom};

    ghost Value = { List ℤ };

    ghost view = { λ d. values_of d.lo d.hi d.listed };

    ghost invariant = { λ d. IsDomainFrom d.lo d.hi (values_of d.lo d.hi d.listed) };
}

impl Domain {
    /// All values from `lo` to `hi`.
    pub fn stretch(alloc: Global, lo: i64, hi: i64) -> Domain
        requires ordered { lo ≤ℤ hi }
        requires low { IsValue lo }
        requires high { IsValue hi }
        ensures { result ≡ stretch lo hi }
    {
        Domain {
            lo,
            hi,
            listed: Ints::new(alloc),
        }
    }

    /// These values and no others.
    pub fn listed(values: Ints) -> Domain
        requires filled { values ≡ [] → ⊥ }
        requires ascends { Ascends values }
        requires valued { AllByRecursion IsValue values }
        ensures { result ≡ values }
    {
        Domain {
            lo: *values.get(0),
            hi: *values.get(values.len() - 1),
            listed: values,
        }
    }

    /// The least value.
    pub fn lo(&self) -> i64
        ensures { IsFirst result self.now }
    {
        self.lo
    }

    /// The greatest value.
    pub fn hi(&self) -> i64
        ensures { IsLast result self.now }
    {
        self.hi
    }

    /// Whether `a` is one of the values.
    pub fn has(&self, a: i64) -> bool
        ensures { IsTrue result ↔ Has self.now a }
    {
        if self.listed.is_empty() {
            self.lo <= a && a <= self.hi
        } else {
            self.listed.as_slice().binary_search(&a).is_ok()
        }
    }

    /// How many values there are.
    pub fn size(&self) -> u64
        ensures { result ≡ length self.now }
    {
        if self.listed.is_empty() {
            self.hi.abs_diff(self.lo) + 1
        } else {
            self.listed.len() as u64
        }
    }

    /// The value at place `i` of the ascending values, counted from 0.
    pub fn nth(&self, i: u64) -> i64
        requires { i < length self.now }
        ensures { slice_get self.now i ≡ Some result }
    {
        if self.listed.is_empty() {
            self.lo + i as i64
        } else {
            *self.listed.get(i as usize)
        }
    }

    /// What every domain keeps.
    pub fn lawful(&self)
        ensures { IsDomain self.now }
    {
        let _lo = self.lo;
    }

    /// An equal domain.
    pub fn copy(&self) -> Result<Domain, AllocError>
        ensures { IfOk result (λ copy. copy ≡ self.now) }
    {
        Ok(Domain {
            lo: self.lo,
            hi: self.hi,
            listed: self.listed.copy()?,
        })
    }
}
