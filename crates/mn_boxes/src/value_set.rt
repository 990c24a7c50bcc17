//! Sets of values by words.
ghost use Rattle.std.specs.Prelude.{◌≡◌, ◌+◌, ◌-◌, ◌*◌, ◌/◌, ◌%◌, ◌^◌, ◌<◌, ◌≤◌, ℤ, ◌≤ℤ◌, int_le, false, not, ◌&&◌, ◌||◌, IfOk, length, replicate};
ghost use Rattle.std.specs.Int.{int_gap};
ghost use Rattle.std.specs.Ordering.{int_eq};
ghost use Rattle.mn_model.specs.Domain.{IsValue};
ghost use Rattle.mn_boxes.specs.Bits.{word_bit};
ghost use Rattle.mn_boxes.specs.Values.{IsAsWide, IsCovered, members, place_of};

use super::bits::{self, WIDTH, is_set};
use std::alloc::{AllocError, Global};
use std::marker::Model;

/// What a value is to be raised by so that no value is below 0.
const RAISE: i64 = 1 << 61;

/// A set of values of a stretch, one bit for each. All sets have the bit of a value at one place of a word, so what two of
/// them share is an `and` of words. Only `new` takes memory.
#[derive(Drop)]
pub struct ValueSet {
    /// The value of the first bit.
    low: i64,
    words: Vec<u64>,
}

impl Model for ValueSet {
    ghost use Rattle.mn_boxes.specs.Values.{IsAligned, Values};

    ghost Value = { Values };

    ghost view = { λ s. record { low = s.low; words = s.words.items } };

    ghost invariant = { λ s. IsAligned (record { low = s.low; words = s.words.items }) };
}

/// The value with the first bit of the word that has the bit of `a`.
fn first_of_word(a: i64) -> i64
    requires { IsValue a }
    ensures low { result ≤ℤ a }
    ensures word { place_of result ≡ place_of a / 64 * 64 }
{
    a - (a + RAISE) % WIDTH as i64
}

/// The number of the bit of `a`, where bit 0 is that of `low`.
fn bit_number(low: i64, a: i64) -> usize
    requires { low ≤ℤ a }
    ensures { result ≡ int_gap low a }
{
    a.abs_diff(low) as usize
}

// So many words with no bit set.
fn zeros(alloc: Global, count: usize) -> Result<Vec<u64>, AllocError>
    ensures zeros { IfOk result (λ words. words.items ≡ replicate count 0) }
    ensures count { IfOk result (λ words. length words.items ≡ count) }
{
    vec![in alloc; 0; count]
}

impl ValueSet {
    /// No values, of those from `lo` to `hi`.
    pub fn new(alloc: Global, lo: i64, hi: i64) -> Result<ValueSet, AllocError>
        requires low { IsValue lo }
        requires high { IsValue hi }
        requires order { lo ≤ℤ hi }
        ensures low { IfOk result (λ s. IsCovered s lo) }
        ensures high { IfOk result (λ s. IsCovered s hi) }
        ensures none { IfOk result (λ s. (a : ℤ) → members s a ≡ false) }
    {
        let low = first_of_word(lo);
        let count = hi.abs_diff(low) as usize / WIDTH + 1;
        let words = zeros(alloc, count)?;
        Ok(ValueSet { low, words })
    }

    /// Takes all values out.
    pub fn clear(&mut self)
        ensures wide { IsAsWide self.old self.new }
        ensures none { (a : ℤ) → members self.new a ≡ false }
    {
        bits::clear_all(&mut self.words);
    }

    /// Whether `a` is in the set.
    pub fn has(&self, a: i64) -> bool
        ensures { result ≡ members self.now a }
    {
        if a < self.low {
            return false;
        }
        let bit = bit_number(self.low, a);
        bit / WIDTH < self.words.len() && is_set(self.words.as_slice(), bit)
    }

    /// Puts `a` into the set.
    pub fn insert(&mut self, a: i64)
        requires { IsCovered self.old a }
        ensures wide { IsAsWide self.old self.new }
        ensures members { (x : ℤ) → members self.new x ≡ (int_eq x a || members self.old x) }
    {
        let bit = bit_number(self.low, a);
        bits::mark(&mut self.words, bit);
    }

    /// Puts the values from `lo` to `hi` into the set.
    pub fn insert_span(&mut self, lo: i64, hi: i64)
        requires order { lo ≤ℤ hi }
        requires low { IsCovered self.old lo }
        requires high { IsCovered self.old hi }
        ensures wide { IsAsWide self.old self.new }
        ensures members { (x : ℤ) → members self.new x ≡ ((int_le lo x && int_le x hi) || members self.old x) }
    {
        let from = bit_number(self.low, lo);
        let to = bit_number(self.low, hi);
        bits::mark_span(&mut self.words, from, to);
    }

    /// Takes `a` out of the set.
    pub fn remove(&mut self, a: i64)
        requires { IsCovered self.old a }
        ensures wide { IsAsWide self.old self.new }
        ensures members { (x : ℤ) → members self.new x ≡ (not (int_eq x a) && members self.old x) }
    {
        let bit = bit_number(self.low, a);
        bits::unmark(&mut self.words, bit);
    }

    /// The word with this number, of all words that values have. The number of a value's word and its place there are those
    /// of its `place_of`.
    pub fn word(&self, number: usize) -> u64
        ensures { (a : ℤ) → place_of a / 64 ≡ number → members self.now a ≡ word_bit result (place_of a % 64) }
    {
        let first = (self.low + RAISE) as usize / WIDTH;
        if number < first || number - first >= self.words.len() {
            return 0;
        }
        self.words[number - first]
    }

    /// The bits of the 64 values from the one with this place on.
    pub fn window(&self, place: usize) -> u64
        requires { place < 2 ^ 62 }
        ensures { (a : ℤ) → place ≤ place_of a → place_of a < place + 64 → members self.now a ≡ word_bit result (place_of a - place) }
    {
        let skipped = place % WIDTH;
        let first = self.word(place / WIDTH);
        if skipped == 0 {
            return first;
        }
        let second = self.word(place / WIDTH + 1);
        (first >> skipped) | (second << (WIDTH - skipped))
    }
}
