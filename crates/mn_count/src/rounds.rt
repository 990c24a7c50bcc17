//! Rounds over the places of an `alldiff` that are still open.
ghost use Rattle.std.specs.Prelude.{◌≡◌, ℕ, ◌<◌, ℤ, false, length};
ghost use Rattle.mn_boxes.specs.Values.{members};
ghost use Rattle.mn_prop.specs.Contexts.{box_of, vars_of};
ghost use Rattle.mn_prop.specs.Losses.{Unsupported};
ghost use Rattle.mn_prop.specs.Passes.{IsStep};
ghost use Rattle.mn_prop.specs.Posts.{ClosedUnderLeaf, IsReadyToRun};

use crate::alldiff::Alldiff;
use crate::open::OpenPlaces;
use crate::taken::Taken;
use mn_prop::{Ctx, Fail};

/// What a pass keeps: the values that places have alone, and the places that it hasn't found to have one alone.
#[derive(Drop)]
pub(crate) struct Rounds {
    pub(crate) taken: Taken,
    pub(crate) open: OpenPlaces,
}

/// What was seen of a place.
#[derive(Clone, Copy, Debug, PartialEq, Eq)]
enum Seen {
    /// It has several values.
    Open,
    /// It has one alone, which is taken now.
    Alone,
    /// It has one alone, for which there is no room.
    Outside,
}

/// What was seen of all open places.
#[derive(Clone, Copy, Debug, PartialEq, Eq)]
enum Round {
    /// Each has several values.
    Done,
    /// Some had one alone.
    Again,
    /// There is no room for a value.
    Outside,
}

impl Rounds {
    ghost use Rattle.mn_count.specs.Counts.{alldiff_of};
    ghost use Rattle.mn_count.specs.Rows.{StandsIn};
    ghost use Rattle.mn_count.specs.Takings.{AreFree, IsCollected, IsSeen, IsTaking};

    /// Takes the values that places have alone out of all other places, until no more places have one alone, or fails. Where
    /// there is no room for a value, it goes on place by place.
    pub(crate) fn run(&mut self, d: &Alldiff<'_>, c: &mut Ctx) -> Result<(), Fail>
        requires ready { IsReadyToRun (vars_of c.old) (alldiff_of d.now) }
        requires room { length self.old.open.items ≡ length d.now.v.now }
        ensures room { length self.new.open.items ≡ length d.now.v.now }
        ensures step { IsStep (Unsupported (alldiff_of d.now)) (ClosedUnderLeaf (vars_of c.old) (alldiff_of d.now)) c.old c.new result }
    {
        c.lawful();
        self.begin();
        loop {
            match self.collect(d, c)? {
                Round::Done => return Ok(()),
                Round::Again => self.exclude(d, c)?,
                Round::Outside => return d.filter(c),
            }
        }
    }

    // No value is taken, and all places are open.
    fn begin(&mut self)
        ensures room { length self.new.open.items ≡ length self.old.open.items }
        ensures all { (i : ℕ) → i < length self.old.open.items → StandsIn self.new.open i i }
        ensures none { (a : ℤ) → members self.new.taken a ≡ false }
    {
        self.taken.clear();
        self.open.fill();
    }

    // Looks at the open place with the number at `k`. If it has one value alone, that is taken, and no other place had it.
    fn look(&mut self, d: &Alldiff<'_>, c: &Ctx, k: usize) -> Result<Seen, Fail>
        requires ready { IsReadyToRun (vars_of c.now) (alldiff_of d.now) }
        requires taking { IsTaking d.now.v.now self.old.taken self.old.open (box_of c.now) }
        requires within { k < self.old.open.left }
        ensures { IsSeen (vars_of c.now) d.now.inst.now.tuples d.now.v.now k (box_of c.now) self.old.taken self.old.open self.new.taken self.new.open result }
    {
        c.lawful();
        self.open.lawful();
        let t = *d.v.get(self.open.get(k));
        if !c.is_single(t) {
            return Ok(Seen::Open);
        }
        let a = c.lo(t);
        if self.taken.has(a) {
            return Err(Fail);
        }
        if !self.taken.insert(a) {
            return Ok(Seen::Outside);
        }
        self.open.take_out(k);
        Ok(Seen::Alone)
    }

    // Looks at each open place, from the last on.
    fn collect(&mut self, d: &Alldiff<'_>, c: &Ctx) -> Result<Round, Fail>
        requires ready { IsReadyToRun (vars_of c.now) (alldiff_of d.now) }
        requires taking { IsTaking d.now.v.now self.old.taken self.old.open (box_of c.now) }
        ensures { IsCollected (vars_of c.now) d.now.inst.now.tuples d.now.v.now (box_of c.now) self.old.taken self.old.open self.new.taken self.new.open result }
    {
        let before = self.open.left();
        for i in 0..before {
            match self.look(d, c, before - 1 - i)? {
                Seen::Open | Seen::Alone => {}
                Seen::Outside => return Ok(Round::Outside),
            }
        }
        if self.open.left() == before {
            Ok(Round::Done)
        } else {
            Ok(Round::Again)
        }
    }

    // Takes the taken values out of each open place.
    fn exclude(&self, d: &Alldiff<'_>, c: &mut Ctx) -> Result<(), Fail>
        requires ready { IsReadyToRun (vars_of c.old) (alldiff_of d.now) }
        requires taking { IsTaking d.now.v.now self.now.taken self.now.open (box_of c.old) }
        ensures { IsStep (Unsupported (alldiff_of d.now)) (AreFree (vars_of c.old) d.now.v.now self.now.taken self.now.open) c.old c.new result }
    {
        c.lawful();
        for k in 0..self.open.left() {
            let t = *d.v.get(self.open.get(k));
            c.exclude(t, self.taken.values())?;
        }
        Ok(())
    }
}
