//! Copies of constraints.
ghost use Rattle.std.specs.Prelude.{◌≡◌, IfOk};
ghost use Rattle.mn_model.specs.Negation.{followed_by};
ghost use Rattle.mn_model.specs.declared.constraint.Con.TheVariants.{End};

use super::{Alias, Con, Cons, Decl, Ints, Order, Print, Sequence, Tab, Term, Terms, Tuples};
use sqlite_items::Boxed;
use std::alloc::{AllocError, Global};

/// What can be copied into memory of `alloc`.
pub(crate) trait Copies: Sized + Drop {
    fn copied(&self, alloc: Global) -> Result<Self, AllocError>
        ensures { IfOk result (λ copy. copy ≡ self.now) };
}

/// Equal items.
pub(crate) fn copy_all<T: Copies>(alloc: Global, items: &[T]) -> Result<Vec<T>, AllocError>
    ensures { IfOk result (λ copies. copies.items ≡ items.now) }
{
    let mut copies = Vec::with_capacity(alloc, items.len())?;
    for item in items {
        copies.push(item.copied(alloc)?)?;
    }
    Ok(copies)
}

/// A list of equal items.
pub(crate) fn copy_of_each<T: Copies>(
    alloc: Global,
    items: &Sequence<T>,
) -> Result<Sequence<T>, AllocError>
    ensures { IfOk result (λ copy. copy ≡ items.now) }
{
    Ok(Sequence::of(copy_all(alloc, items.as_slice())?))
}

// A copy of a vector with what stands after it, as one form.
pub(crate) fn with_one<A: Copy, F: FnOnce(Terms, A) -> Con>(
    make: F,
    v: &Terms,
    a: A,
) -> Result<Con, AllocError>
    requires { F.IsAlwaysCallable make }
    ensures { IfOk result (λ con. F.post make v.now a con) }
{
    Ok(make(v.copy()?, a))
}

pub(crate) fn with_two<A: Copy, B: Copy, F: FnOnce(Terms, A, B) -> Con>(
    make: F,
    v: &Terms,
    a: A,
    b: B,
) -> Result<Con, AllocError>
    requires { F.IsAlwaysCallable make }
    ensures { IfOk result (λ con. F.post make v.now a b con) }
{
    Ok(make(v.copy()?, a, b))
}

// Copies of two vectors, as one form.
pub(crate) fn of_two<F: FnOnce(Terms, Terms) -> Con>(
    make: F,
    v: &Terms,
    w: &Terms,
) -> Result<Con, AllocError>
    requires { F.IsAlwaysCallable make }
    ensures { IfOk result (λ con. F.post make v.now w.now con) }
{
    Ok(make(v.copy()?, w.copy()?))
}

fn weighted<F: FnOnce(Ints, Terms, Term) -> Con>(
    make: F,
    ks: &Ints,
    v: &Terms,
    x: Term,
) -> Result<Con, AllocError>
    requires { F.IsAlwaysCallable make }
    ensures { IfOk result (λ con. F.post make ks.now v.now x con) }
{
    Ok(make(ks.copy()?, v.copy()?, x))
}

pub(crate) fn tabled<F: FnOnce(Terms, Tab) -> Con>(
    make: F,
    v: &Terms,
    tab: &Tab,
) -> Result<Con, AllocError>
    requires { F.IsAlwaysCallable make }
    ensures { IfOk result (λ con. F.post make v.now tab.now con) }
{
    Ok(make(v.copy()?, tab.copy()?))
}

pub(crate) fn in_set<F: FnOnce(Term, Ints) -> Con>(
    make: F,
    x: Term,
    ks: &Ints,
) -> Result<Con, AllocError>
    requires { F.IsAlwaysCallable make }
    ensures { IfOk result (λ con. F.post make x ks.now con) }
{
    Ok(make(x, ks.copy()?))
}

impl Con {
    /// An equal constraint. Calls stand inside one another as deep as forms do.
    #[cycle(copying)]
    pub fn copy(&self, alloc: Global) -> Result<Con, AllocError>
        ensures { IfOk result (λ copy. copy ≡ self.now) }
    {
        match self {
            Con::Eq(x, y) => Ok(Con::Eq(*x, *y)),
            Con::Diseq(x, y) => Ok(Con::Diseq(*x, *y)),
            Con::Ineq(x, y, k) => Ok(Con::Ineq(*x, *y, *k)),
            Con::Watchless(x, y) => Ok(Con::Watchless(*x, *y)),
            Con::Minuseq(x, y) => Ok(Con::Minuseq(*x, *y)),
            Con::Abs(x, y) => Ok(Con::Abs(*x, *y)),
            Con::Difference(x, y, z) => Ok(Con::Difference(*x, *y, *z)),
            Con::Product(x, y, z) => Ok(Con::Product(*x, *y, *z)),
            Con::Div(x, y, z) => Ok(Con::Div(*x, *y, *z)),
            Con::Modulo(x, y, z) => Ok(Con::Modulo(*x, *y, *z)),
            Con::Max(v, x) => with_one(Con::Max, v, *x),
            Con::Min(v, x) => with_one(Con::Min, v, *x),
            Con::Sumleq(v, x) => with_one(Con::Sumleq, v, *x),
            Con::Sumgeq(v, x) => with_one(Con::Sumgeq, v, *x),
            Con::Weightedsumleq(ks, v, x) => weighted(Con::Weightedsumleq, ks, v, *x),
            Con::Weightedsumgeq(ks, v, x) => weighted(Con::Weightedsumgeq, ks, v, *x),
            Con::Watchsumleq(v, k) => with_one(Con::Watchsumleq, v, *k),
            Con::Watchsumgeq(v, k) => with_one(Con::Watchsumgeq, v, *k),
            Con::Litsumgeq(v, ks, k) => Ok(Con::Litsumgeq(v.copy()?, ks.copy()?, *k)),
            Con::Element(v, x, y) => with_two(Con::Element, v, *x, *y),
            Con::Watchelement(v, x, y) => with_two(Con::Watchelement, v, *x, *y),
            Con::ElementOne(v, x, y) => with_two(Con::ElementOne, v, *x, *y),
            Con::WatchelementOne(v, x, y) => with_two(Con::WatchelementOne, v, *x, *y),
            Con::Table(v, tab) => tabled(Con::Table, v, tab),
            Con::Negativetable(v, tab) => tabled(Con::Negativetable, v, tab),
            Con::Alldiff(v) => Ok(Con::Alldiff(v.copy()?)),
            Con::Lexleq(v, w) => of_two(Con::Lexleq, v, w),
            Con::Lexless(v, w) => of_two(Con::Lexless, v, w),
            Con::Watchvecneq(v, w) => of_two(Con::Watchvecneq, v, w),
            Con::Hamming(v, w, k) => Ok(Con::Hamming(v.copy()?, w.copy()?, *k)),
            Con::Occurrence(v, k, x) => with_two(Con::Occurrence, v, *k, *x),
            Con::Occurrenceleq(v, k, k2) => with_two(Con::Occurrenceleq, v, *k, *k2),
            Con::Occurrencegeq(v, k, k2) => with_two(Con::Occurrencegeq, v, *k, *k2),
            Con::Nvalueleq(v, x) => with_one(Con::Nvalueleq, v, *x),
            Con::WLiteral(x, k) => Ok(Con::WLiteral(*x, *k)),
            Con::WNotliteral(x, k) => Ok(Con::WNotliteral(*x, *k)),
            Con::WInset(x, ks) => in_set(Con::WInset, *x, ks),
            Con::WNotinset(x, ks) => in_set(Con::WNotinset, *x, ks),
            Con::WInrange(x, k, k2) => Ok(Con::WInrange(*x, *k, *k2)),
            Con::WNotinrange(x, k, k2) => Ok(Con::WNotinrange(*x, *k, *k2)),
            Con::WInintervalset(x, ks) => in_set(Con::WInintervalset, *x, ks),
            Con::Always => Ok(Con::Always),
            Con::Never => Ok(Con::Never),
            Con::WatchedOr(children) => Ok(Con::WatchedOr(children.copy(alloc)?)),
            Con::WatchedAnd(children) => Ok(Con::WatchedAnd(children.copy(alloc)?)),
            Con::Reify(part, r) => Ok(Con::Reify(Boxed::new(alloc, part.get().copy(alloc)?)?, *r)),
            Con::Reifyimply(part, r) => {
                Ok(Con::Reifyimply(Boxed::new(alloc, part.get().copy(alloc)?)?, *r))
            }
            Con::Negated(part) => Ok(Con::Negated(Boxed::new(alloc, part.get().copy(alloc)?)?)),
        }
    }
}

impl Cons {
    /// These children, in order. After an `Err` they are given up.
    pub fn of(alloc: Global, mut children: Vec<Con>) -> Result<Cons, AllocError>
        ensures { IfOk result (λ cons. cons ≡ followed_by children.items End) }
    {
        let mut cons = Cons::End;
        while let Some(last) = children.pop() {
            cons = Cons::More(Boxed::new(alloc, last)?, Boxed::new(alloc, cons)?);
        }
        Ok(cons)
    }

    /// Equal children.
    #[cycle(copying)]
    pub fn copy(&self, alloc: Global) -> Result<Cons, AllocError>
        ensures { IfOk result (λ copy. copy ≡ self.now) }
    {
        let mut copies = Vec::new(alloc);
        let mut rest = self;
        while let Cons::More(first, others) = rest {
            copies.push(first.get().copy(alloc)?)?;
            rest = others.get();
        }
        Cons::of(alloc, copies)
    }
}

impl Tab {
    /// An equal table.
    pub fn copy(&self) -> Result<Tab, AllocError>
        ensures { IfOk result (λ copy. copy ≡ self.now) }
    {
        match self {
            Tab::Named(n) => Ok(Tab::Named(*n)),
            Tab::Here { arity, cells } => Ok(Tab::Here {
                arity: *arity,
                cells: cells.copy()?,
            }),
        }
    }
}

impl Decl {
    /// An equal declaration.
    pub fn copy(&self) -> Result<Decl, AllocError>
        ensures { IfOk result (λ copy. copy ≡ self.now) }
    {
        Ok(Decl {
            name: self.name.copy()?,
            dims: self.dims.copy()?,
            kind: self.kind,
            domain: self.domain.copy()?,
            first: self.first,
        })
    }
}

impl Alias {
    /// An equal alias.
    pub fn copy(&self) -> Result<Alias, AllocError>
        ensures { IfOk result (λ copy. copy ≡ self.now) }
    {
        Ok(Alias {
            name: self.name.copy()?,
            dims: self.dims.copy()?,
            vars: self.vars.copy()?,
        })
    }
}

impl Tuples {
    /// An equal tuple list, which shares the tuples.
    pub fn copy(&self) -> Result<Tuples, AllocError>
        ensures { IfOk result (λ copy. copy ≡ self.now) }
    {
        Ok(Tuples {
            name: self.name.copy()?,
            arity: self.arity,
            cells: self.cells.copy()?,
        })
    }
}

impl Order {
    /// An equal order.
    pub fn copy(&self) -> Result<Order, AllocError>
        ensures { IfOk result (λ copy. copy ≡ self.now) }
    {
        Ok(Order {
            vars: self.vars.copy()?,
            down: self.down.copy()?,
        })
    }
}

impl Print {
    /// Equal rows, in memory of `alloc`.
    pub fn copy(&self, alloc: Global) -> Result<Print, AllocError>
        ensures { IfOk result (λ copy. copy ≡ self.now) }
    {
        match self {
            Print::All => Ok(Print::All),
            Print::Nothing => Ok(Print::Nothing),
            Print::Rows(rows) => Ok(Print::Rows(copy_of_each(alloc, rows)?)),
        }
    }
}

impl Copies for Con {
    fn copied(&self, alloc: Global) -> Result<Con, AllocError> {
        self.copy(alloc)
    }
}

impl Copies for Decl {
    fn copied(&self, _alloc: Global) -> Result<Decl, AllocError> {
        self.copy()
    }
}

impl Copies for Alias {
    fn copied(&self, _alloc: Global) -> Result<Alias, AllocError> {
        self.copy()
    }
}

impl Copies for Tuples {
    fn copied(&self, _alloc: Global) -> Result<Tuples, AllocError> {
        self.copy()
    }
}

impl Copies for Terms {
    fn copied(&self, _alloc: Global) -> Result<Terms, AllocError> {
        self.copy()
    }
}
