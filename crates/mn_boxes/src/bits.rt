//! Bits in a row of words: bit `i` is bit `i % 64` of word `i / 64`.
ghost use Rattle.std.specs.Prelude.{◌≡◌, ◌≢◌, ℕ, ◌+◌, ◌-◌, ◌*◌, ◌^◌, ◌<◌, ◌≤◌, ◌==◌, true, false, length, slice_index, slice_set, nat_le, ◌&&◌, ◌||◌, bit_or, ◌/◌, ◌%◌};
ghost use Rattle.mn_boxes.specs.Bits.{bit_of, cleared, count_from, marked_at, word_bit};

/// How many bits a word has.
pub const WIDTH: usize = 64;

/// Whether bit `i` is set.
pub fn is_set(words: &[u64], i: usize) -> bool
    requires { i < 64 * length words.now }
    ensures { result ≡ bit_of words.now i }
{
    (words[i / WIDTH] >> (i % WIDTH)) & 1 == 1
}

/// Sets bit `i`.
pub fn mark(words: &mut Vec<u64>, i: usize)
    requires { i < 64 * length words.old.items }
    ensures { words.new.items ≡ marked_at words.old.items i }
{
    words[i / WIDTH] |= 1 << (i % WIDTH);
}

/// Clears bit `i`.
pub fn unmark(words: &mut Vec<u64>, i: usize)
    requires { i < 64 * length words.old.items }
    ensures { words.new.items ≡ cleared words.old.items i }
{
    words[i / WIDTH] &= !(1 << (i % WIDTH));
}

/// Clears all bits.
pub fn clear_all(words: &mut Vec<u64>)
    ensures count { length words.new.items ≡ length words.old.items }
    ensures zeros { (k : ℕ) → k < length words.new.items → slice_index words.new.items k ≡ 0 }
{
    for i in 0..words.len() {
        words[i] = 0;
    }
}

/// The first word from `at` on that isn't 0. Word `end` isn't.
fn next_word(words: &[u64], at: usize, end: usize) -> usize
    requires order { at ≤ end }
    requires room { end < length words.now }
    requires some { slice_index words.now end ≢ 0 }
    ensures from { at ≤ result }
    ensures within { result ≤ end }
    ensures some { slice_index words.now result ≢ 0 }
    ensures none { (k : ℕ) → at ≤ k → k < result → slice_index words.now k ≡ 0 }
{
    let mut word = at;
    while words[word] == 0 {
        word += 1;
    }
    word
}

/// The first set bit from `i` on. One is set at `end`.
pub fn next_set(words: &[u64], i: usize, end: usize) -> usize
    requires order { i ≤ end }
    requires room { end < 64 * length words.now }
    requires set { bit_of words.now end ≡ true }
    ensures from { i ≤ result }
    ensures within { result ≤ end }
    ensures set { bit_of words.now result ≡ true }
    ensures none { (k : ℕ) → i ≤ k → k < result → bit_of words.now k ≡ false }
{
    let rest = words[i / WIDTH] >> (i % WIDTH);
    if rest != 0 {
        return i + rest.trailing_zeros() as usize;
    }
    let word = next_word(words, i / WIDTH + 1, end / WIDTH);
    word * WIDTH + words[word].trailing_zeros() as usize
}

/// The last word before `at` that isn't 0. Word `start` isn't.
fn previous_word(words: &[u64], at: usize, start: usize) -> usize
    requires order { start < at }
    requires room { at ≤ length words.now }
    requires some { slice_index words.now start ≢ 0 }
    ensures from { start ≤ result }
    ensures within { result < at }
    ensures some { slice_index words.now result ≢ 0 }
    ensures none { (k : ℕ) → result < k → k < at → slice_index words.now k ≡ 0 }
{
    let mut word = at - 1;
    while words[word] == 0 {
        word -= 1;
    }
    word
}

/// The last set bit up to `i`. One is set at `start`.
pub fn previous_set(words: &[u64], i: usize, start: usize) -> usize
    requires order { start ≤ i }
    requires room { i < 64 * length words.now }
    requires set { bit_of words.now start ≡ true }
    ensures from { start ≤ result }
    ensures within { result ≤ i }
    ensures set { bit_of words.now result ≡ true }
    ensures none { (k : ℕ) → result < k → k ≤ i → bit_of words.now k ≡ false }
{
    if is_set(words, i) {
        return i;
    }
    let rest = words[i / WIDTH] % (1 << (i % WIDTH));
    if rest != 0 {
        return i / WIDTH * WIDTH + rest.ilog2() as usize;
    }
    let word = previous_word(words, i / WIDTH, start / WIDTH);
    word * WIDTH + words[word].ilog2() as usize
}

/// How many of `n` bits of a word are set, from bit `first` on.
fn count_in(word: u64, first: usize, n: usize) -> usize
    requires some { 1 ≤ n }
    requires room { first + n ≤ 64 }
    ensures count { result ≡ count_from (word_bit word) first n }
    ensures few { result ≤ n }
{
    ((word >> first) & (u64::MAX >> (WIDTH - n))).count_ones() as usize
}

/// How many bits are set from bit `from` on, before bit `to`.
pub fn count(words: &[u64], from: usize, to: usize) -> usize
    requires order { from ≤ to }
    requires room { to ≤ 64 * length words.now }
    requires small { to < 2 ^ 62 }
    ensures count { result ≡ count_from (bit_of words.now) from (to - from) }
    ensures few { result ≤ to - from }
{
    let mut count = 0;
    let mut i = from;
    while i < to {
        let next = to.min((i / WIDTH + 1) * WIDTH);
        count += count_in(words[i / WIDTH], i % WIDTH, next - i);
        i = next;
    }
    count
}

/// A word with the bits from `first` up to `last` set.
pub fn run(first: usize, last: usize) -> u64
    requires order { first ≤ last }
    requires last { last < 64 }
    ensures { (t : ℕ) → t < 64 → word_bit result t ≡ (nat_le first t && nat_le t last) }
{
    (u64::MAX >> (WIDTH - 1 - last)) & (u64::MAX << first)
}

/// The bits, in one word, of those from `from` to `to`.
pub fn run_in(word: usize, from: usize, to: usize) -> u64
    requires order { from ≤ to }
    requires low { from / 64 ≤ word }
    requires high { word ≤ to / 64 }
    ensures { (i : ℕ) → i / 64 ≡ word → word_bit result (i % 64) ≡ (nat_le from i && nat_le i to) }
{
    let first = if word == from / WIDTH {
        from % WIDTH
    } else {
        0
    };
    let last = if word == to / WIDTH {
        to % WIDTH
    } else {
        WIDTH - 1
    };
    run(first, last)
}

/// Sets these bits of a word.
fn set_in(words: &mut Vec<u64>, word: usize, more: u64)
    requires { word < length words.old.items }
    ensures { words.new.items ≡ slice_set words.old.items word (bit_or (slice_index words.old.items word) more) }
{
    words[word] |= more;
}

/// Sets the bits from `from` to `to`.
pub fn mark_span(words: &mut Vec<u64>, from: usize, to: usize)
    requires order { from ≤ to }
    requires room { to < 64 * length words.old.items }
    ensures count { length words.new.items ≡ length words.old.items }
    ensures bits { (i : ℕ) → bit_of words.new.items i ≡ ((nat_le from i && nat_le i to) || bit_of words.old.items i) }
{
    for word in from / WIDTH..to / WIDTH + 1 {
        let more = run_in(word, from, to);
        set_in(words, word, more);
    }
}
