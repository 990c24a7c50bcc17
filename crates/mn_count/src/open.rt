//! The places that a pass has still to look at.
ghost use Rattle.std.specs.Prelude.{◌≡◌, ℕ, ◌<◌, IfOk, length, slice_index};
ghost use Rattle.mn_count.specs.Rows.{IsRow, StandsIn, without};

use std::alloc::{AllocError, Global};
use std::marker::Model;

/// Numbers of places, in a row that is made once. No number stands twice.
#[derive(Drop)]
pub(crate) struct OpenPlaces {
    items: Vec<usize>,
    /// How many of them are in use.
    left: usize,
}

impl Model for OpenPlaces {
    ghost use Rattle.mn_count.specs.Rows.{IsRow, Row};

    ghost Value = { Row };

    ghost view = { λ r. record { items = r.items.items; left = r.left } };

    ghost invariant = { λ r. IsRow (record { items = r.items.items; left = r.left }) };
}

// Each item becomes its own number.
fn number_all(items: &mut Vec<usize>)
    ensures count { length items.new.items ≡ length items.old.items }
    ensures numbers { (k : ℕ) → k < length items.new.items → slice_index items.new.items k ≡ k }
{
    for i in 0..items.len() {
        items[i] = i;
    }
}

impl OpenPlaces {
    /// Room for so many, none of them in use.
    pub(crate) fn new(alloc: Global, count: usize) -> Result<OpenPlaces, AllocError>
        ensures { IfOk result (λ r. length r.items ≡ count) }
    {
        let items = vec![in alloc; 0usize; count]?;
        Ok(OpenPlaces { items, left: 0 })
    }

    /// All numbers that there is room for.
    pub(crate) fn fill(&mut self)
        ensures room { length self.new.items ≡ length self.old.items }
        ensures all { (i : ℕ) → i < length self.old.items → StandsIn self.new i i }
    {
        number_all(&mut self.items);
        self.left = self.items.len();
    }

    /// How many are in use.
    pub(crate) fn left(&self) -> usize
        ensures { result ≡ self.now.left }
    {
        self.left
    }

    /// The number at `k`.
    pub(crate) fn get(&self, k: usize) -> usize
        requires { k < self.now.left }
        ensures stands { StandsIn self.now k result }
        ensures within { result < length self.now.items }
    {
        self.items[k]
    }

    /// What a row keeps.
    pub(crate) fn lawful(&self)
        ensures { IsRow self.now }
    {
        let _left = self.left;
    }

    /// Takes the number at `k` out, and puts the last one in its place.
    pub(crate) fn take_out(&mut self, k: usize)
        requires { k < self.old.left }
        ensures { self.new ≡ without k self.old }
    {
        self.left -= 1;
        self.items[k] = self.items[self.left];
    }
}
