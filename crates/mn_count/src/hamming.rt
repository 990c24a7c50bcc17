//! Two vectors that differ at so many places: `hamming`.
ghost use Rattle.std.specs.Prelude.{◌≡◌, length, pos};
ghost use Rattle.mn_prop.specs.Contexts.{box_of, vars_of};
ghost use Rattle.mn_prop.specs.Footings.{no_footing};
ghost use Rattle.mn_prop.specs.Losses.{Unsupported};
ghost use Rattle.mn_prop.specs.Passes.{IsStep};
ghost use Rattle.mn_prop.specs.Posts.{ClosedUnderLeaf, IsReadyToRun};
ghost use Rattle.mn_count.specs.Distances.{IsCountedTo, open_pairs};

use crate::pair::{are_one, part_pair};
use mn_model::{Instance, Term, Terms};
use mn_prop::{Ctx, Fail, Scoped};

/// Two vectors that have different values at some number of places at least.
#[derive(Drop)]
pub struct Hamming<'a> {
    pub(crate) v: &'a Terms,
    pub(crate) w: &'a Terms,
    pub(crate) least: i64,
    pub(crate) inst: &'a Instance,
}

impl Hamming<'_> {
    ghost use Rattle.mn_count.specs.Counts.{hamming_of};

    /// Fails where too few pairs of places can differ. Where just enough can, each of them is kept apart.
    pub(crate) fn filter(&self, c: &mut Ctx) -> Result<(), Fail>
        requires { IsReadyToRun (vars_of c.old) (hamming_of self.now) }
        ensures { IsStep (Unsupported (hamming_of self.now)) (ClosedUnderLeaf (vars_of c.old) (hamming_of self.now)) c.old c.new result }
    {
        c.lawful();
        let open = self.open_pairs(c);
        let least = i128::from(self.least);
        if open < least {
            return Err(Fail);
        }
        if least < open {
            return Ok(());
        }
        self.part_all(c)
    }

    // How many pairs of places aren't one value. It stops where there are more than have to differ.
    fn open_pairs(&self, c: &Ctx) -> i128
        requires { IsReadyToRun (vars_of c.now) (hamming_of self.now) }
        ensures { IsCountedTo self.now.least (box_of c.now) self.now.v.now self.now.w.now result }
    {
        let least = i128::from(self.least);
        let mut count = 0;
        for i in 0..self.v.len() {
            if are_one(c, *self.v.get(i), *self.w.get(i)) {
                continue;
            }
            count += 1;
            if least < count {
                return count;
            }
        }
        count
    }

    // Keeps each pair apart that isn't one value. There are as many of them as have to differ.
    fn part_all(&self, c: &mut Ctx) -> Result<(), Fail>
        requires ready { IsReadyToRun (vars_of c.old) (hamming_of self.now) }
        requires tight { pos (open_pairs (box_of c.old) self.now.v.now self.now.w.now) ≡ self.now.least }
        ensures { IsStep (Unsupported (hamming_of self.now)) (ClosedUnderLeaf (vars_of c.old) (hamming_of self.now)) c.old c.new result }
    {
        c.lawful();
        for i in 0..self.v.len() {
            let (x, y) = (*self.v.get(i), *self.w.get(i));
            if are_one(c, x, y) {
                continue;
            }
            part_pair(c, x, y)?;
        }
        Ok(())
    }
}

impl Scoped for Hamming<'_> {
    ghost use Rattle.mn_count.specs.Counts.{hamming_of};

    ghost posted = { hamming_of };

    ghost footing = { λ _. no_footing };

    fn places(&self) -> usize {
        self.v.as_slice().len() + self.w.as_slice().len()
    }

    fn term(&self, i: usize) -> Term {
        if i < self.v.len() {
            *self.v.get(i)
        } else {
            *self.w.get(i - self.v.len())
        }
    }
}
