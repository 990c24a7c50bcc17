//! A value that several owners share.
ghost use Rattle.std.specs.Prelude.{◌≡◌, ◌<◌, length, slice_get, Some, ◌↔◌, IsTrue, IfOk};

use super::Ints;
use std::alloc::{AllocError, Global};
use std::marker::Model;
use std::rc::RcSlice;

/// Numbers that several owners share. Contracts see them as a list.
#[derive(Debug, Drop)]
pub struct Shared {
    items: RcSlice<i64>,
}

impl Model for Shared {
    ghost use Rattle.std.specs.Prelude.{List, ℤ};
    ghost use Rattle.std.specs.Rc.{rc_slice_items};

    ghost Value = { List ℤ };

    ghost view = { λ s. rc_slice_items s.items };
}

impl Shared {
    /// These numbers, which others can share from now on.
    pub fn new(items: Ints) -> Result<Shared, AllocError>
        ensures { IfOk result (λ shared. shared ≡ items) }
    {
        Ok(Shared {
            items: RcSlice::from_vec(items.into_vec())?,
        })
    }

    /// How many numbers there are.
    pub fn len(&self) -> usize
        ensures { result ≡ length self.now }
    {
        self.items.len()
    }

    /// Whether there are no numbers.
    pub fn is_empty(&self) -> bool
        ensures { IsTrue result ↔ (length self.now ≡ 0) }
    {
        self.items.len() == 0
    }

    /// The number at place `i`, counted from 0.
    pub fn get(&self, i: usize) -> &i64
        requires { i < length self.now }
        ensures { slice_get self.now i ≡ Some result.now }
    {
        &self.items.as_slice()[i]
    }

    /// All numbers, in order.
    pub fn as_slice(&self) -> &[i64]
        ensures { result.now ≡ self.now }
    {
        self.items.as_slice()
    }

    /// One more owner of the same numbers.
    pub fn copy(&self) -> Result<Shared, AllocError>
        ensures { IfOk result (λ copy. copy ≡ self.now) }
    {
        Ok(Shared {
            items: self.items.clone()?,
        })
    }
}
