//! What a set of values has in common with a row of bits, word by word: the first and the last that is in both, which tell the
//! ends of what a change keeps, and the row without the others.
ghost use Rattle.std.specs.Prelude.{◌≡◌, ℕ, ◌+◌, ◌-◌, ◌*◌, ◌/◌, ◌%◌, ◌^◌, ◌<◌, ◌≤◌, ℤ, true, false, not, ◌&&◌, length, slice_index, slice_set, bit_and, MatchOption};
ghost use Rattle.std.specs.Int.{bit_not, w64};
ghost use Rattle.mn_boxes.specs.Bits.{bit_of, word_bit};
ghost use Rattle.mn_boxes.specs.Sets.{greatest, least};
ghost use Rattle.mn_model.specs.Domain.{IsValue};
ghost use Rattle.mn_domains.specs.Rows.{Spans, value_placed};
ghost use Rattle.mn_boxes.specs.Values.{place_of};

use mn_boxes::ValueSet;
use mn_boxes::bits::{WIDTH, run_in};

/// How far the place of a value is above the value.
const RAISE: i64 = 1 << 61;

/// The bits of the values from one to another.
#[derive(Clone, Copy, Debug, PartialEq, Eq)]
pub struct Row {
    /// The bit of the least value.
    pub from: usize,
    /// The bit of the greatest value.
    pub to: usize,
    /// How much the place of a value is above the number of its bit.
    pub raise: usize,
    /// Whether all bits count as set: the row is that of a stretch, which has no bits of its own.
    pub full: bool,
}

/// The value with this place.
fn value_of(place: usize) -> i64
    requires { place < 2 ^ 62 }
    ensures { result ≡ value_placed place }
{
    place as i64 - RAISE
}

/// The place of a value.
pub fn place(a: i64) -> usize
    requires { IsValue a }
    ensures { result ≡ place_of a }
{
    (a + RAISE) as usize
}

/// All values from `from` to `to`.
pub fn stretch_row(from: i64, to: i64) -> Row
    requires low { IsValue from }
    requires high { IsValue to }
    ensures spans { Spans result from to }
    ensures raise { result.raise ≡ 0 }
    ensures full { result.full ≡ true }
{
    Row {
        from: place(from),
        to: place(to),
        raise: 0,
        full: true,
    }
}

/// Clears these bits of a word.
fn clear_in(bits: &mut Vec<u64>, word: usize, lost: u64)
    requires { word < length bits.old.items }
    ensures { bits.new.items ≡ slice_set bits.old.items word (bit_and (slice_index bits.old.items word) (bit_not w64 lost)) }
{
    bits[word] &= !lost;
}

impl Row {
    ghost use Rattle.mn_domains.specs.Rows.{hits, is_hit, is_in, passes};

    /// The bits of the 64 values from the one with this place on that are in the set, or that aren't where `wanted` is false.
    fn passing(set: &ValueSet, wanted: bool, place: usize) -> u64
        requires { place < 2 ^ 62 }
        ensures { (a : ℤ) → place ≤ place_of a → place_of a < place + 64 → passes set.now wanted a ≡ word_bit result (place_of a - place) }
    {
        let window = set.window(place);
        if wanted { window } else { !window }
    }

    /// One word of the bits that count as set.
    fn word_of(self, bits: &[u64], word: usize) -> u64
        requires { self.full ≡ false → word < length bits.now }
        ensures { (i : ℕ) → i / 64 ≡ word → word_bit result (i % 64) ≡ is_in bits.now self i }
    {
        if self.full {
            return u64::MAX;
        }
        bits[word]
    }

    /// The bits of one word that are hit.
    fn part(self, bits: &[u64], set: &ValueSet, wanted: bool, word: usize) -> u64
        requires order { self.from ≤ self.to }
        requires low { self.from / 64 ≤ word }
        requires high { word ≤ self.to / 64 }
        requires room { self.full ≡ false → self.to < 64 * length bits.now }
        requires small { self.to + self.raise < 2 ^ 62 }
        ensures { (i : ℕ) → i / 64 ≡ word → word_bit result (i % 64) ≡ is_hit bits.now self set.now wanted i }
    {
        self.word_of(bits, word)
            & run_in(word, self.from, self.to)
            & Row::passing(set, wanted, word * WIDTH + self.raise)
    }

    /// The first bit that is hit.
    fn first_hit(self, bits: &[u64], set: &ValueSet, wanted: bool) -> Option<usize>
        requires order { self.from ≤ self.to }
        requires room { self.full ≡ false → self.to < 64 * length bits.now }
        requires small { self.to + self.raise < 2 ^ 62 }
        ensures { MatchOption result ((i : ℕ) → is_hit bits.now self set.now wanted i ≡ false) (λ first. (is_hit bits.now self set.now wanted first ≡ true) × ((i : ℕ) → i < first → is_hit bits.now self set.now wanted i ≡ false)) }
    {
        for word in self.from / WIDTH..self.to / WIDTH + 1 {
            let part = self.part(bits, set, wanted, word);
            if part != 0 {
                return Some(word * WIDTH + part.trailing_zeros() as usize);
            }
        }
        None
    }

    /// The last bit that is hit.
    fn last_hit(self, bits: &[u64], set: &ValueSet, wanted: bool) -> Option<usize>
        requires order { self.from ≤ self.to }
        requires room { self.full ≡ false → self.to < 64 * length bits.now }
        requires small { self.to + self.raise < 2 ^ 62 }
        ensures { MatchOption result ((i : ℕ) → is_hit bits.now self set.now wanted i ≡ false) (λ last. (is_hit bits.now self set.now wanted last ≡ true) × ((i : ℕ) → last < i → is_hit bits.now self set.now wanted i ≡ false)) }
    {
        let first = self.from / WIDTH;
        let mut word = self.to / WIDTH + 1;
        while first < word {
            word -= 1;
            let part = self.part(bits, set, wanted, word);
            if part != 0 {
                return Some(word * WIDTH + part.ilog2() as usize);
            }
        }
        None
    }

    /// The least value whose bit counts as set and that is in the set, or isn't where `wanted` is false.
    pub fn first_value(self, bits: &[u64], set: &ValueSet, wanted: bool) -> Option<i64>
        requires order { self.from ≤ self.to }
        requires room { self.full ≡ false → self.to < 64 * length bits.now }
        requires small { self.to + self.raise < 2 ^ 62 }
        ensures { result ≡ least (hits bits.now self set.now wanted) }
    {
        match self.first_hit(bits, set, wanted) {
            Some(bit) => Some(value_of(bit + self.raise)),
            None => None,
        }
    }

    /// The greatest of these values.
    pub fn last_value(self, bits: &[u64], set: &ValueSet, wanted: bool) -> Option<i64>
        requires order { self.from ≤ self.to }
        requires room { self.full ≡ false → self.to < 64 * length bits.now }
        requires small { self.to + self.raise < 2 ^ 62 }
        ensures { result ≡ greatest (hits bits.now self set.now wanted) }
    {
        match self.last_hit(bits, set, wanted) {
            Some(bit) => Some(value_of(bit + self.raise)),
            None => None,
        }
    }

    /// Clears the bits that are set and not hit.
    pub fn keep_hits(self, bits: &mut Vec<u64>, set: &ValueSet, wanted: bool)
        requires order { self.from ≤ self.to }
        requires room { self.to < 64 * length bits.old.items }
        requires plain { self.full ≡ false }
        requires small { self.to + self.raise < 2 ^ 62 }
        ensures words { length bits.new.items ≡ length bits.old.items }
        ensures bits { (i : ℕ) → bit_of bits.new.items i ≡ (bit_of bits.old.items i && not (is_hit bits.old.items self set.now (not wanted) i)) }
    {
        for word in self.from / WIDTH..self.to / WIDTH + 1 {
            let lost = self.part(bits.as_slice(), set, !wanted, word);
            clear_in(bits, word, lost);
        }
    }
}
