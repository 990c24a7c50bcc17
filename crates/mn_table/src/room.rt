//! How much room the sets need that a pass by marks fills.
ghost use Rattle.std.specs.Prelude.{◌≡◌, ◌≤◌, ◌≤ℤ◌, ◌⊎◌, length};
ghost use Rattle.std.specs.List.{AllByRecursion};

use crate::listed::Listed;
use mn_model::VALUE;

/// How many values of a set there may be for each tuple.
const EACH: u64 = 64;

/// And for how many tuples beside those of the table.
const BESIDE: u64 = 256;

/// The least and the greatest number of the tuples, and the number of the last tuple.
#[derive(Clone, Copy, Debug, PartialEq, Eq)]
pub(crate) struct Room {
    pub(crate) lo: i64,
    pub(crate) hi: i64,
    pub(crate) last: i64,
}

// The lesser of two numbers.
fn lesser(a: i64, b: i64) -> i64
    ensures first { result ≤ℤ a }
    ensures second { result ≤ℤ b }
{
    if a < b { a } else { b }
}

// The greater of two numbers.
fn greater(a: i64, b: i64) -> i64
    ensures first { a ≤ℤ result }
    ensures second { b ≤ℤ result }
{
    if a < b { b } else { a }
}

// The least number.
fn least(cells: &[i64]) -> i64
    requires { 1 ≤ length cells.now }
    ensures { AllByRecursion (λ a. result ≤ℤ a) cells.now }
{
    let mut lo = cells[0];
    for i in 1..cells.len() {
        lo = lesser(lo, cells[i]);
    }
    lo
}

// The greatest number.
fn greatest(cells: &[i64]) -> i64
    requires { 1 ≤ length cells.now }
    ensures { AllByRecursion (λ a. a ≤ℤ result) cells.now }
{
    let mut hi = cells[0];
    for i in 1..cells.len() {
        hi = greater(hi, cells[i]);
    }
    hi
}

// Whether there are few enough values between the ends for a set, beside so many tuples.
fn is_narrow(lo: i64, hi: i64, tuples: usize) -> bool {
    let words = hi.abs_diff(lo) / EACH;
    words < BESIDE || words - BESIDE < tuples as u64
}

impl Listed<'_> {
    ghost use Rattle.std.specs.Prelude.{IfSome};
    ghost use Rattle.mn_table.specs.Marks.{IsRoomFor};

    /// The room for sets of the numbers of the tuples, if it isn't too much.
    pub(crate) fn room(&self) -> Option<Room>
        ensures { IfSome result (λ room. IsRoomFor (length self.now.v.now) self.now.cells.now room) }
    {
        let tuples = self.cells.len() / self.v.len();
        if tuples == 0 || tuples > VALUE as usize {
            return None;
        }
        let lo = least(self.cells);
        let hi = greatest(self.cells);
        if lo < -VALUE || hi > VALUE || !is_narrow(lo, hi, tuples) {
            return None;
        }
        Some(Room {
            lo,
            hi,
            last: tuples as i64 - 1,
        })
    }
}
