//! A first-in first-out queue of numbers, in which each number stands at most once.
ghost use Rattle.std.specs.Prelude.{◌≡◌, ◌<◌, [], IfOk, IfSome, drop, slice_get};
ghost use Rattle.mn_lists.specs.Standing.{pushed};

use mn_block::words::Words;
use std::alloc::{AllocError as NoMemory, Global};
use std::marker::Model;

#[derive(Drop)]
pub(crate) struct Queue {
    // The word of a number that is in the queue is one more than the number after it, and of any other
    // number 0. After the last one comes `numbers`.
    after: Words,
    numbers: usize,
    // `numbers` where the queue is empty.
    first: usize,
    last: usize,
}

impl Model for Queue {
    ghost use Rattle.mn_lists.specs.Queue.{IsQueue, NumberQueue, items_of, number_queue};

    ghost Value = { NumberQueue };

    ghost view = { λ q. number_queue q.after q.numbers q.first };

    ghost invariant = { λ q. IsQueue q.after q.numbers q.first q.last (items_of q.after q.numbers q.first) };
}

impl Queue {
    pub(crate) fn new(alloc: Global, numbers: usize) -> Result<Queue, NoMemory>
        ensures numbers { IfOk result (λ q. q.numbers ≡ numbers) }
        ensures items { IfOk result (λ q. q.items ≡ []) }
    {
        Ok(Queue {
            after: Words::zeroed(alloc, numbers)?,
            numbers,
            first: numbers,
            last: numbers,
        })
    }

    pub(crate) fn push(&mut self, number: usize)
        requires { number < self.old.numbers }
        ensures numbers { self.new.numbers ≡ self.old.numbers }
        ensures items { self.new.items ≡ pushed number self.old.items }
    {
        if self.after.get(number) != 0 {
            return;
        }
        self.after.set(number, self.numbers as u64 + 1);
        if self.first == self.numbers {
            self.first = number;
            self.last = number;
            return;
        }
        self.after.set(self.last, number as u64 + 1);
        self.last = number;
    }

    pub(crate) fn pop(&mut self) -> Option<usize>
        ensures taken { result ≡ slice_get self.old.items 0 }
        ensures numbers { self.new.numbers ≡ self.old.numbers }
        ensures items { self.new.items ≡ drop 1 self.old.items }
        ensures number { IfSome result (λ k. k < self.old.numbers) }
    {
        if self.first == self.numbers {
            return None;
        }
        let number = self.first;
        self.first = self.after.get(number) as usize - 1;
        self.after.set(number, 0);
        Some(number)
    }

    // Takes off what is queued, one by one.
    pub(crate) fn clear(&mut self)
        ensures numbers { self.new.numbers ≡ self.old.numbers }
        ensures items { self.new.items ≡ [] }
    {
        while self.pop().is_some() {}
    }
}
