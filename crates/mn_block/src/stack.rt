//! The saved copies of a block, the last one on top.
ghost use Rattle.std.specs.Prelude.{◌≡◌, ◌==◌, ◌-◌, ◌<◌, [], ◌∷◌, ◌++◌, length, take, is_ok, if◌then◌else◌, slice_get};

use crate::words::Words;
use std::alloc::{AllocError as NoMemory, Global};
use std::marker::Model;

/// Saved copies of a block's words, the last one on top.
#[derive(Drop)]
pub struct Stack {
    // Those past `depth` were taken off. Their memory is used again.
    copies: Vec<Words>,
    depth: usize,
    alloc: Global,
}

impl Model for Stack {
    ghost use Rattle.std.specs.Prelude.{ℕ, ◌≤◌, List, length, take};

    ghost Value = { List (List ℕ) };

    ghost view = { λ s. take s.depth s.copies.items };

    ghost invariant = { λ s. s.depth ≤ length s.copies.items };
}

impl Stack {
    /// The stack of no copies. It takes no memory.
    pub fn new(alloc: Global) -> Stack
        ensures { result ≡ [] }
    {
        Stack {
            copies: Vec::new(alloc),
            depth: 0,
            alloc,
        }
    }

    pub(crate) fn push(&mut self, words: &[u64]) -> Result<(), NoMemory>
        ensures { self.new ≡ (if is_ok result then self.old ++ words.now ∷ [] else self.old) }
    {
        if self.depth == self.copies.len() {
            let copy = Words::copied(self.alloc, words)?;
            self.copies.push(copy)?;
        } else {
            overwrite(self.alloc, &mut self.copies[self.depth], words)?;
        }
        self.depth += 1;
        Ok(())
    }

    pub(crate) fn is_empty(&self) -> bool
        ensures { result ≡ (length self.now == 0) }
    {
        self.depth == 0
    }

    pub(crate) fn top(&self) -> &[u64]
        requires { 0 < length self.now }
        ensures { slice_get self.now (length self.now - 1) ≡ Some result.now }
    {
        self.copies[self.depth - 1].as_slice()
    }

    pub(crate) fn drop_top(&mut self)
        requires { 0 < length self.old }
        ensures { self.new ≡ take (length self.old - 1) self.old }
    {
        self.depth -= 1;
    }
}

// Makes `copy` a copy of the words, in its own memory where their number is the same.
fn overwrite(alloc: Global, copy: &mut Words, words: &[u64]) -> Result<(), NoMemory>
    ensures { copy.new ≡ (if is_ok result then words.now else copy.old) }
{
    if copy.as_slice().len() == words.len() {
        copy.write_front(words);
    } else {
        *copy = Words::copied(alloc, words)?;
    }
    Ok(())
}
