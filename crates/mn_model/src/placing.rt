//! The places of a constraint: how many there are, the one at an index, and all of them as a list.
ghost use Rattle.std.specs.Prelude.{◌≡◌, [], ◌∷◌, ◌++◌, ◌<◌, ◌≤◌, ℕ, List, length, min, slice_get, Some, IfOk, OnOk};
ghost use Rattle.mn_model.specs.Parts.{places, places_of};
ghost use Rattle.mn_model.specs.Places.{IsAt, depth_of, laid_out};
ghost use Rattle.mn_model.specs.declared.constraint.Con.{size-Con};
ghost use Rattle.mn_model.specs.declared.constraint.Term.{Term};

use super::{Con, Cons, Term, Terms};
use std::alloc::{AllocError, Global};

/// How the places of a constraint stand in it, in written order.
pub(crate) enum Layout<'a> {
    Nothing,
    One(Term),
    Two(Term, Term),
    Three(Term, Term, Term),
    Vector(&'a Terms),
    Vectors(&'a Terms, &'a Terms),
    /// A vector and the term after it.
    Before(&'a Terms, Term),
    /// A vector and the two terms after it.
    BeforeTwo(&'a Terms, Term, Term),
    /// Those of the constraint inside.
    Inside(&'a Con),
    /// Those of the constraint inside, and the term after it.
    InsideBefore(&'a Con, Term),
    /// Those of the children.
    Children(&'a Cons),
}

impl Con {
    /// How its places stand in it; what stands inside is less deep than it.
    fn layout(&self) -> Layout<'_>
        ensures placed { laid_out result ≡ places self.now }
        ensures below { depth_of result ≤ size-Con self.now }
    {
        match self {
            Con::Eq(x, y) => Layout::Two(*x, *y),
            Con::Diseq(x, y) => Layout::Two(*x, *y),
            Con::Ineq(x, y, _) => Layout::Two(*x, *y),
            Con::Watchless(x, y) => Layout::Two(*x, *y),
            Con::Minuseq(x, y) => Layout::Two(*x, *y),
            Con::Abs(x, y) => Layout::Two(*x, *y),
            Con::Difference(x, y, z) => Layout::Three(*x, *y, *z),
            Con::Product(x, y, z) => Layout::Three(*x, *y, *z),
            Con::Div(x, y, z) => Layout::Three(*x, *y, *z),
            Con::Modulo(x, y, z) => Layout::Three(*x, *y, *z),
            Con::Max(v, x) => Layout::Before(v, *x),
            Con::Min(v, x) => Layout::Before(v, *x),
            Con::Sumleq(v, x) => Layout::Before(v, *x),
            Con::Sumgeq(v, x) => Layout::Before(v, *x),
            Con::Weightedsumleq(_, v, x) => Layout::Before(v, *x),
            Con::Weightedsumgeq(_, v, x) => Layout::Before(v, *x),
            Con::Watchsumleq(v, _) => Layout::Vector(v),
            Con::Watchsumgeq(v, _) => Layout::Vector(v),
            Con::Litsumgeq(v, _, _) => Layout::Vector(v),
            Con::Element(v, x, y) => Layout::BeforeTwo(v, *x, *y),
            Con::Watchelement(v, x, y) => Layout::BeforeTwo(v, *x, *y),
            Con::ElementOne(v, x, y) => Layout::BeforeTwo(v, *x, *y),
            Con::WatchelementOne(v, x, y) => Layout::BeforeTwo(v, *x, *y),
            Con::Table(v, _) => Layout::Vector(v),
            Con::Negativetable(v, _) => Layout::Vector(v),
            Con::Alldiff(v) => Layout::Vector(v),
            Con::Lexleq(v, w) => Layout::Vectors(v, w),
            Con::Lexless(v, w) => Layout::Vectors(v, w),
            Con::Watchvecneq(v, w) => Layout::Vectors(v, w),
            Con::Hamming(v, w, _) => Layout::Vectors(v, w),
            Con::Occurrence(v, _, x) => Layout::Before(v, *x),
            Con::Occurrenceleq(v, _, _) => Layout::Vector(v),
            Con::Occurrencegeq(v, _, _) => Layout::Vector(v),
            Con::Nvalueleq(v, x) => Layout::Before(v, *x),
            Con::WLiteral(x, _) => Layout::One(*x),
            Con::WNotliteral(x, _) => Layout::One(*x),
            Con::WInset(x, _) => Layout::One(*x),
            Con::WNotinset(x, _) => Layout::One(*x),
            Con::WInrange(x, _, _) => Layout::One(*x),
            Con::WNotinrange(x, _, _) => Layout::One(*x),
            Con::WInintervalset(x, _) => Layout::One(*x),
            Con::Always => Layout::Nothing,
            Con::Never => Layout::Nothing,
            Con::WatchedOr(children) => Layout::Children(children),
            Con::WatchedAnd(children) => Layout::Children(children),
            Con::Reify(part, r) => Layout::InsideBefore(part.get(), *r),
            Con::Reifyimply(part, r) => Layout::InsideBefore(part.get(), *r),
            Con::Negated(part) => Layout::Inside(part.get()),
        }
    }

    /// How many places there are, or the greatest number where there are more.
    #[cycle(counting_places)]
    pub fn place_count(&self) -> usize
        ensures { result ≡ min (length (places self.now)) 18446744073709551615 }
    {
        match self.layout() {
            Layout::Nothing => 0,
            Layout::One(_) => 1,
            Layout::Two(_, _) => 2,
            Layout::Three(_, _, _) => 3,
            Layout::Vector(v) => v.len(),
            Layout::Vectors(v, w) => v.len().saturating_add(w.len()),
            Layout::Before(v, _) => v.len().saturating_add(1),
            Layout::BeforeTwo(v, _, _) => v.len().saturating_add(2),
            Layout::Inside(part) => part.place_count(),
            Layout::InsideBefore(part, _) => part.place_count().saturating_add(1),
            Layout::Children(children) => children.place_count(),
        }
    }

    /// The place at `i`, counted from 0 in written order. Of a leaf it is found at once.
    pub fn place(&self, i: usize) -> Term
        requires { i < length (places self.now) }
        ensures { slice_get (places self.now) i ≡ Some result }
    {
        self.place_or_left(i).unwrap()
    }

    /// The place at `i`, or how far `i` is after the last one.
    #[cycle(seeking)]
    fn place_or_left(&self, i: usize) -> Result<Term, usize>
        ensures { IsAt (places self.now) i result }
    {
        match self.layout() {
            Layout::Nothing => Err(i),
            Layout::One(x) => term_at(&[x], i),
            Layout::Two(x, y) => term_at(&[x, y], i),
            Layout::Three(x, y, z) => term_at(&[x, y, z], i),
            Layout::Vector(v) => term_at(v.as_slice(), i),
            Layout::Vectors(v, w) => or_at(term_at(v.as_slice(), i), w.as_slice()),
            Layout::Before(v, x) => or_at(term_at(v.as_slice(), i), &[x]),
            Layout::BeforeTwo(v, x, y) => or_at(term_at(v.as_slice(), i), &[x, y]),
            Layout::Inside(part) => part.place_or_left(i),
            Layout::InsideBefore(part, r) => or_at(part.place_or_left(i), &[r]),
            Layout::Children(children) => children.place_or_left(i),
        }
    }

    /// All places, in written order.
    pub fn places(&self, alloc: Global) -> Result<Vec<Term>, AllocError>
        ensures { IfOk result (λ terms. terms.items ≡ places self.now) }
    {
        let mut terms = Vec::with_capacity(alloc, self.place_count())?;
        self.add_places(&mut terms)?;
        Ok(terms)
    }

    /// Adds the places, in written order.
    #[cycle(placing)]
    fn add_places(&self, terms: &mut Vec<Term>) -> Result<(), AllocError>
        ensures { OnOk result (terms.new.items ≡ terms.old.items ++ places self.now) }
    {
        match self.layout() {
            Layout::Nothing => Ok(()),
            Layout::One(x) => terms.extend_from_slice(&[x]),
            Layout::Two(x, y) => terms.extend_from_slice(&[x, y]),
            Layout::Three(x, y, z) => terms.extend_from_slice(&[x, y, z]),
            Layout::Vector(v) => terms.extend_from_slice(v.as_slice()),
            Layout::Vectors(v, w) => {
                terms.extend_from_slice(v.as_slice())?;
                terms.extend_from_slice(w.as_slice())
            }
            Layout::Before(v, x) => {
                terms.extend_from_slice(v.as_slice())?;
                terms.extend_from_slice(&[x])
            }
            Layout::BeforeTwo(v, x, y) => {
                terms.extend_from_slice(v.as_slice())?;
                terms.extend_from_slice(&[x, y])
            }
            Layout::Inside(part) => part.add_places(terms),
            Layout::InsideBefore(part, r) => {
                part.add_places(terms)?;
                terms.extend_from_slice(&[r])
            }
            Layout::Children(children) => children.add_places(terms),
        }
    }
}

impl Cons {
    /// How many places they have together, or the greatest number where there are more.
    #[cycle(counting_places)]
    fn place_count(&self) -> usize
        ensures { result ≡ min (length (places_of self.now)) 18446744073709551615 }
    {
        let mut count: usize = 0;
        let mut rest = self;
        while let Cons::More(first, others) = rest {
            count = count.saturating_add(first.get().place_count());
            rest = others.get();
        }
        count
    }

    /// The place at `i`, or how far `i` is after the last one.
    #[cycle(seeking)]
    fn place_or_left(&self, i: usize) -> Result<Term, usize>
        ensures { IsAt (places_of self.now) i result }
    {
        let mut left = i;
        let mut rest = self;
        while let Cons::More(first, others) = rest {
            match first.get().place_or_left(left) {
                Ok(term) => return Ok(term),
                Err(behind) => left = behind,
            }
            rest = others.get();
        }
        Err(left)
    }

    /// Adds the places of each child, in order.
    #[cycle(placing)]
    fn add_places(&self, terms: &mut Vec<Term>) -> Result<(), AllocError>
        ensures { OnOk result (terms.new.items ≡ terms.old.items ++ places_of self.now) }
    {
        let mut rest = self;
        while let Cons::More(first, others) = rest {
            first.get().add_places(terms)?;
            rest = others.get();
        }
        Ok(())
    }
}

// The term at `i`, or how far `i` is after the last one.
fn term_at(terms: &[Term], i: usize) -> Result<Term, usize>
    ensures { IsAt terms.now i result }
{
    if i < terms.len() {
        Ok(terms[i])
    } else {
        Err(i - terms.len())
    }
}

// What was found, or else the term of further ones.
fn or_at(found: Result<Term, usize>, further: &[Term]) -> Result<Term, usize>
    ensures { (before : List Term) (i : ℕ) → IsAt before i found → IsAt (before ++ further.now) i result }
{
    match found {
        Ok(term) => Ok(term),
        Err(left) => term_at(further, left),
    }
}
