//! The entry of a vector at an index, value by value.
ghost use Rattle.std.specs.Prelude.{pos, ◌≤ℤ◌, ◌≡◌, ◌↔◌, ◌<◌, IsTrue, false, length};
ghost use Rattle.mn_prop.specs.Contexts.{box_of, vars_of};
ghost use Rattle.mn_prop.specs.Footings.{no_footing};
ghost use Rattle.mn_prop.specs.Losses.{Unsupported};
ghost use Rattle.mn_prop.specs.Passes.{IsStep};
ghost use Rattle.mn_prop.specs.Posts.{ClosedUnderLeaf, IsReadyToRun, beside};
ghost use Rattle.mn_element.specs.Elements.{IsOfIndex, entry_is, indexed_of};
ghost use Rattle.mn_element.specs.Picks.{EntryClosed, IsEntryAt, Picks, PicksAt, PicksEntry};

use crate::picking::{Wanted, share, share_value};
use mn_model::{Con, Instance, Term, Terms};
use mn_prop::{Ctx, Fail, Scoped, SupportTest, revise};

/// How the entries are counted, and which of two forms it was that are narrowed alike.
#[derive(Clone, Copy, Debug, PartialEq, Eq)]
pub enum Form {
    /// `element`: the first entry has index 0.
    FromZero,
    /// `watchelement`.
    WatchedFromZero,
    /// `element_one`: the first entry has index 1.
    FromOne,
    /// `watchelement_one`.
    WatchedFromOne,
}

/// A vector, an index into it and the result, which the entry there is.
#[derive(Drop)]
pub(crate) struct Indexed<'a> {
    pub(crate) form: Form,
    pub(crate) v: &'a Terms,
    pub(crate) x: Term,
    pub(crate) y: Term,
    pub(crate) inst: &'a Instance,
}

impl Form {
    ghost use Rattle.mn_element.specs.Elements.{first_index};

    // The index of the first entry.
    pub(crate) fn first(self) -> i64
        ensures is { result ≡ first_index self }
        ensures low { pos 0 ≤ℤ result }
        ensures high { result ≤ℤ pos 1 }
    {
        match self {
            Form::FromZero | Form::WatchedFromZero => 0,
            Form::FromOne | Form::WatchedFromOne => 1,
        }
    }
}

impl<'a> Indexed<'a> {
    /// Those of the constraint, beside the tuple lists of the instance.
    pub(crate) fn of(inst: &'a Instance, con: &'a Con) -> Indexed<'a>
        requires { IsOfIndex con.now }
        ensures posted { indexed_of result ≡ beside inst.now.tuples con.now }
        ensures inst { result.inst.now ≡ inst.now }
    {
        match con {
            Con::Element(v, x, y) => of_form(inst, Form::FromZero, v, *x, *y),
            Con::Watchelement(v, x, y) => of_form(inst, Form::WatchedFromZero, v, *x, *y),
            Con::ElementOne(v, x, y) => of_form(inst, Form::FromOne, v, *x, *y),
            Con::WatchelementOne(v, x, y) => of_form(inst, Form::WatchedFromOne, v, *x, *y),
            _ => unreachable!(),
        }
    }
}

fn of_form<'a>(inst: &'a Instance, form: Form, v: &'a Terms, x: Term, y: Term) -> Indexed<'a>
    ensures posted { indexed_of result ≡ beside inst.now.tuples (entry_is form v.now x y) }
    ensures inst { result.inst.now ≡ inst.now }
{
    Indexed {
        form,
        v,
        x,
        y,
        inst,
    }
}

impl Indexed<'_> {
    ghost use Rattle.mn_element.specs.Elements.{first_index};

    // Takes values of the index and of the result that aren't supported, and then those of an entry that is the only one.
    pub(crate) fn filter(&self, c: &mut Ctx) -> Result<(), Fail>
        requires { IsReadyToRun (vars_of c.old) (indexed_of self.now) }
        ensures { IsStep (Unsupported (indexed_of self.now)) (ClosedUnderLeaf (vars_of c.old) (indexed_of self.now)) c.old c.new result }
    {
        c.lawful();
        let entries = self.v.len();
        revise(self, c, entries)?;
        revise(self, c, entries + 1)?;
        self.narrow_entry(c)
    }

    // Takes values of the entry at the index, if the index has one value alone.
    pub(crate) fn narrow_entry(&self, c: &mut Ctx) -> Result<(), Fail>
        requires { IsReadyToRun (vars_of c.old) (indexed_of self.now) }
        ensures { IsStep (Unsupported (indexed_of self.now)) (EntryClosed (vars_of c.old) (indexed_of self.now) (first_index self.now.form) self.now.v.now self.now.x) c.old c.new result }
    {
        c.lawful();
        let lo = c.lo(self.x);
        if lo < c.hi(self.x) {
            return Ok(());
        }
        match self.entry_at(lo) {
            Some(k) => revise(self, c, k),
            None => Ok(()),
        }
    }

    // The number of the entry at an index.
    pub(crate) fn entry_at(&self, i: i64) -> Option<usize>
        ensures { IsEntryAt (first_index self.now.form) self.now.v.now i result }
    {
        let k = i128::from(i) - i128::from(self.form.first());
        if k < 0 {
            return None;
        }
        if k >= self.v.len() as i128 {
            return None;
        }
        Some(k as usize)
    }

    // Whether entry k and the result have a value in common that is wanted.
    fn picks_entry(&self, c: &Ctx, k: usize, wanted: Wanted) -> bool
        requires ready { IsReadyToRun (vars_of c.now) (indexed_of self.now) }
        requires within { k < length self.now.v.now }
        ensures { IsTrue result ↔ PicksEntry (box_of c.now) self.now.v.now self.now.y wanted k }
    {
        let t = *self.v.get(k);
        match wanted {
            Wanted::Anything => share(c, t, self.y),
            Wanted::OfEntry(j, a) => {
                if k == j {
                    share_value(c, t, self.y, a)
                } else {
                    share(c, t, self.y)
                }
            }
            Wanted::OfResult(a) => share_value(c, t, self.y, a),
        }
    }

    // The same of the entry at index i.
    fn picks_at(&self, c: &Ctx, i: i64, wanted: Wanted) -> bool
        requires { IsReadyToRun (vars_of c.now) (indexed_of self.now) }
        ensures { IsTrue result ↔ PicksAt (box_of c.now) (first_index self.now.form) self.now.v.now self.now.y wanted i }
    {
        match self.entry_at(i) {
            Some(k) => self.picks_entry(c, k, wanted),
            None => false,
        }
    }

    // The same of some entry at an index that x has.
    fn picks(&self, c: &Ctx, wanted: Wanted) -> bool
        requires { IsReadyToRun (vars_of c.now) (indexed_of self.now) }
        ensures { IsTrue result ↔ Picks (box_of c.now) (first_index self.now.form) self.now.v.now self.now.x self.now.y wanted }
    {
        let mut i = c.lo(self.x);
        loop {
            if self.picks_at(c, i, wanted) {
                return true;
            }
            match c.next(self.x, i) {
                Some(next) => i = next,
                None => return false,
            }
        }
    }
}

impl Scoped for Indexed<'_> {
    ghost posted = { indexed_of };

    ghost footing = { λ e. no_footing };

    fn places(&self) -> usize {
        self.v.as_slice().len() + 2
    }

    fn term(&self, i: usize) -> Term {
        let entries = self.v.len();
        if i < entries {
            *self.v.get(i)
        } else if i == entries {
            self.x
        } else {
            self.y
        }
    }
}

impl SupportTest for Indexed<'_> {
    fn supported(&self, c: &Ctx, i: usize, a: i64) -> bool {
        c.lawful();
        let entries = self.v.len();
        if i < entries {
            self.picks(c, Wanted::OfEntry(i, a))
        } else if i == entries {
            self.picks_at(c, a, Wanted::Anything)
        } else {
            self.picks(c, Wanted::OfResult(a))
        }
    }

    fn bare(&self) -> bool {
        true
    }

    fn by_ends(&self) -> bool {
        false
    }
}
