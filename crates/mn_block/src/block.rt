//! The block: the words in use, and spare room after them.
ghost use Rattle.std.specs.Prelude.{◌≡◌, ℕ, ◌+◌, ◌-◌, ◌^◌, ◌<◌, ◌≤◌, [], ◌∷◌, ◌++◌, length, take, replicate, slice_index, slice_index_or, slice_set, is_ok, IfOk, All, nat_lt, if◌then◌else◌};

use crate::stack::Stack;
use crate::words::{MOST_WORDS, Words};
use std::alloc::{AllocError as NoMemory, Global};
use std::marker::Model;

/// Names the words of a block from `first` on: word `i` of it is word `first + i` of the block. It
/// stays right when the block grows.
#[derive(Clone, Copy, PartialEq, Eq, Debug)]
pub struct Place {
    pub first: usize,
}

/// A growing row of words.
#[derive(Drop)]
pub struct Block {
    // Those past `len` are spare room.
    words: Words,
    len: usize,
    alloc: Global,
}

impl Model for Block {
    ghost use Rattle.std.specs.Prelude.{ℕ, ◌≤◌, List, length, take};
    ghost use Rattle.mn_block.specs.declared.words.TheConstants.{MOST_WORDS};

    ghost Value = { List ℕ };

    ghost view = { λ b. take b.len b.words };

    ghost invariant = { λ b. (b.len ≤ length b.words) × (length b.words ≤ MOST_WORDS) };
}

// The same words in a row that has room for `n` more. It has twice the room, so that growing word by
// word is linear.
fn grown(alloc: Global, words: &[u64], n: usize) -> Result<Words, NoMemory>
    requires { length words.now ≤ MOST_WORDS }
    ensures words { IfOk result (λ w. take (length words.now) w ≡ words.now) }
    ensures room { IfOk result (λ w. length words.now + n ≤ length w) }
    ensures fits { IfOk result (λ w. length w ≤ MOST_WORDS) }
{
    let len = words.len();
    if MOST_WORDS - len < n {
        return Err(NoMemory);
    }
    let room = MOST_WORDS.min(2 * len).max(len + n);
    let mut grown = Words::zeroed(alloc, room)?;
    grown.write_front(words);
    Ok(grown)
}

impl Block {
    /// The block of no words. It takes no memory.
    pub fn new(alloc: Global) -> Block
        ensures { result ≡ [] }
    {
        Block {
            words: Words::empty(alloc),
            len: 0,
            alloc,
        }
    }

    /// Appends `n` words of 0. The memory may move.
    pub fn extend(&mut self, n: usize) -> Result<Place, NoMemory>
        ensures place { IfOk result (λ p. p.first ≡ length self.old) }
        ensures words { self.new ≡ (if is_ok result then self.old ++ replicate n 0 else self.old) }
        ensures kept { (k : ℕ) → k < length self.old → slice_index self.new k ≡ slice_index self.old k }
    {
        let first = self.len;
        if self.words.as_slice().len() - first < n {
            self.words = grown(self.alloc, &self.words.as_slice()[..first], n)?;
        }
        self.words.clear(first, n);
        self.len = first + n;
        Ok(Place { first })
    }

    /// Word `i` of the place.
    pub fn get(&self, p: Place, i: usize) -> u64
        requires { p.first + i < length self.now }
        ensures { result ≡ slice_index self.now (p.first + i) }
    {
        self.words.get(p.first + i)
    }

    /// Writes word `i` of the place.
    pub fn set(&mut self, p: Place, i: usize, word: u64)
        requires { p.first + i < length self.old }
        ensures { self.new ≡ slice_set self.old (p.first + i) word }
    {
        self.words.set(p.first + i, word);
    }

    /// Puts a copy of all words on the stack.
    pub fn save(&mut self, stack: &mut Stack) -> Result<(), NoMemory>
        ensures saved { stack.new ≡ (if is_ok result then stack.old ++ self.old ∷ [] else stack.old) }
        ensures words { self.new ≡ self.old }
    {
        stack.push(&self.words.as_slice()[..self.len])
    }

    /// Takes the last saved copy off the stack and makes it the words. With none saved it answers
    /// false and changes nothing.
    pub fn restore(&mut self, stack: &mut Stack) -> bool
        requires { All (λ saved. length saved ≡ length self.old) stack.old }
        ensures answer { result ≡ nat_lt 0 (length stack.old) }
        ensures words { self.new ≡ slice_index_or stack.old (length stack.old - 1) self.old }
        ensures rest { stack.new ≡ take (length stack.old - 1) stack.old }
        ensures len { length self.new ≡ length self.old }
    {
        if stack.is_empty() {
            return false;
        }
        self.words.write_front(stack.top());
        stack.drop_top();
        true
    }
}

#[cfg(test)]
mod tests {
    use super::*;
    use std::test::Fail;

    // A call that was refused its memory has changed nothing, so it is made once more.
    fn extended(block: &mut Block, n: usize) -> Result<Place, NoMemory>
        ensures place { IfOk result (λ p. p.first ≡ length block.old) }
        ensures words { IfOk result (λ _. block.new ≡ block.old ++ replicate n 0) }
    {
        match block.extend(n) {
            Ok(place) => Ok(place),
            Err(NoMemory) => block.extend(n),
        }
    }

    fn saved(block: &mut Block, stack: &mut Stack) -> Result<(), NoMemory>
        ensures saved { IfOk result (λ _. stack.new ≡ stack.old ++ block.old ∷ []) }
        ensures words { IfOk result (λ _. block.new ≡ block.old) }
    {
        match block.save(stack) {
            Ok(()) => Ok(()),
            Err(NoMemory) => block.save(stack),
        }
    }

    #[test]
    fn restores_what_was_saved(rt: HostRuntime) -> Result<(), Fail> {
        let mut block = Block::new(rt.alloc());
        let mut stack = Stack::new(rt.alloc());
        let pair = extended(&mut block, 2)?;
        block.set(pair, 0, 5);
        saved(&mut block, &mut stack)?;
        block.set(pair, 0, 7);
        assert!(rt; block.restore(&mut stack));
        assert_eq!(rt; (block.get(pair, 0), block.get(pair, 1)), (5, 0));
        assert!(rt; !block.restore(&mut stack));
        Ok(())
    }

    #[test]
    fn keeps_places(rt: HostRuntime) -> Result<(), Fail> {
        let mut block = Block::new(rt.alloc());
        let pair = extended(&mut block, 2)?;
        block.set(pair, 0, 5);
        let more = extended(&mut block, 100_000)?;
        assert_eq!(rt; more.first, 2);
        assert_eq!(rt; (block.get(pair, 0), block.get(pair, 1)), (5, 0));
        Ok(())
    }

    // The second save writes over the memory of the copy that was taken off.
    #[test]
    fn saves_again(rt: HostRuntime) -> Result<(), Fail> {
        let mut block = Block::new(rt.alloc());
        let mut stack = Stack::new(rt.alloc());
        let word = extended(&mut block, 1)?;
        saved(&mut block, &mut stack)?;
        block.restore(&mut stack);
        block.set(word, 0, 9);
        saved(&mut block, &mut stack)?;
        block.set(word, 0, 1);
        block.restore(&mut stack);
        assert_eq!(rt; block.get(word, 0), 9);
        Ok(())
    }
}
