//! A row of words in memory of its own.
ghost use Rattle.std.specs.Prelude.{◌≡◌, ◌+◌, ◌^◌, ◌<◌, ◌≤◌, [], ◌++◌, length, take, drop, replicate, slice_index, slice_set, IfOk};
ghost use Rattle.std.specs.Borrow.{sem};

use crate::cells::{Cells, Lease, Room};
use std::alloc::{AllocError as NoMemory, Global};
use std::marker::Model;

/// The most words that one row may have.
pub const MOST_WORDS: usize = (1 << 60) - 1;

/// A row of words that are all written, in memory that it frees at its end. Its number of words
/// never changes.
pub struct Words {
    cells: Cells,
    lease: Option<Lease<Global>>,
    alloc: Global,
}

impl Model for Words {
    ghost use Rattle.std.specs.Prelude.{ℕ, List};

    ghost Value = { List ℕ };

    ghost use Rattle.mn_block.specs.Cells.{IsLeased};

    ghost view = { λ w. w.cells.words };

    ghost invariant = { λ w. IsLeased w.cells w.lease w.alloc };
}

impl Drop for Words {
    fn drop(self) {
        let Words {
            cells,
            lease,
            alloc,
        } = self;
        if let Some(lease) = lease {
            cells.free(lease, &alloc);
        }
    }
}

fn write_front(row: &mut [u64], words: &[u64])
    requires { length words.now ≤ length row.old }
    ensures { row.new ≡ words.now ++ drop (length words.now) row.old }
{
    row[..words.len()].copy_from_slice(words);
}

impl Words {
    ghost use Rattle.mn_block.specs.Words.{LendsWords};

    /// A row of no words. It takes no memory.
    pub fn empty(alloc: Global) -> Words
        ensures { result ≡ [] }
    {
        Words {
            cells: Cells::empty(),
            lease: None,
            alloc,
        }
    }

    /// A row of `len` words of 0.
    pub fn zeroed(alloc: Global, len: usize) -> Result<Words, NoMemory>
        ensures words { IfOk result (λ w. w ≡ replicate len 0) }
        ensures fits { IfOk result (λ _. len ≤ MOST_WORDS) }
    {
        if len > MOST_WORDS {
            return Err(NoMemory);
        }
        let Some((room, lease)) = Room::new(&alloc, len) else {
            return Err(NoMemory);
        };
        Ok(Words {
            cells: room.zeroed(),
            lease: Some(lease),
            alloc,
        })
    }

    /// A row of the same words as the slice.
    pub fn copied(alloc: Global, words: &[u64]) -> Result<Words, NoMemory>
        ensures { IfOk result (λ w. w ≡ words.now) }
    {
        let mut copy = Words::zeroed(alloc, words.len())?;
        copy.write_front(words);
        Ok(copy)
    }

    /// All words.
    pub fn as_slice(&self) -> &[u64]
        ensures { result.now ≡ self.now }
    {
        self.cells.as_slice()
    }

    /// All words, to be written.
    pub fn as_mut_slice(&mut self) -> &mut [u64]
        ensures* writes_back { sem 𝓛 (LendsWords self.entry result) }
        ensures value { result.now ≡ self.old }
    {
        self.cells.as_mut_slice()
    }

    /// Word `i`.
    pub fn get(&self, i: usize) -> u64
        requires { i < length self.now }
        ensures { result ≡ slice_index self.now i }
    {
        self.as_slice()[i]
    }

    /// Writes word `i`.
    pub fn set(&mut self, i: usize, word: u64)
        requires { i < length self.old }
        ensures { self.new ≡ slice_set self.old i word }
    {
        self.as_mut_slice()[i] = word;
    }

    /// Writes the words over as many at the front.
    pub fn write_front(&mut self, words: &[u64])
        requires { length words.now ≤ length self.old }
        ensures { self.new ≡ words.now ++ drop (length words.now) self.old }
    {
        write_front(self.as_mut_slice(), words);
    }

    /// Writes 0 over the `n` words from `first` on.
    pub fn clear(&mut self, first: usize, n: usize)
        requires { first + n ≤ length self.old }
        ensures { self.new ≡ take first self.old ++ replicate n 0 ++ drop (first + n) self.old }
    {
        self.as_mut_slice()[first..first + n].fill(0);
    }
}
