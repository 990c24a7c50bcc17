//! The constraint that holds exactly where another does not.
ghost use Rattle.std.specs.Prelude.{◌≡◌, IfOk, ◌++◌, ◌∷◌, [], pos, negsuc, replicate};
ghost use Rattle.mn_model.specs.Lawful.{HasNearConstants, HaveNearConstants, IsNearTerm};
ghost use Rattle.mn_model.specs.Negation.{negation, negations, more, negated, ones, reified, other, at_least_above, at_most_below};
ghost use Rattle.mn_model.specs.declared.constraint.Con.TheVariants.{WatchedAnd, WLiteral, End};

use super::copying::{in_set, of_two, tabled, with_one, with_two};
use super::{Con, Cons, Ints, Term, Terms};
use sqlite_items::Boxed;
use std::alloc::{AllocError, Global};

/// The constraint that holds exactly where this one doesn't. Its constants may be one past the limit of values, and its
/// vectors may have one place more than the limit of places.
#[cycle(reversing)]
pub fn reverse(alloc: Global, con: &Con) -> Result<Con, AllocError>
    requires { HasNearConstants con.now }
    ensures { IfOk result (λ reversed. reversed ≡ negation con.now) }
{
    match con {
        Con::Eq(x, y) => Ok(Con::Diseq(*x, *y)),
        Con::Diseq(x, y) => Ok(Con::Eq(*x, *y)),
        Con::Ineq(x, y, k) => Ok(Con::Ineq(*y, *x, -*k - 1)),
        Con::Watchless(x, y) => Ok(Con::Ineq(*y, *x, 0)),
        Con::Sumleq(v, x) => sum_above(alloc, v, *x),
        Con::Sumgeq(v, x) => sum_below(alloc, v, *x),
        Con::Weightedsumleq(ks, v, x) => at_least_above(ks, v, *x),
        Con::Weightedsumgeq(ks, v, x) => at_most_below(ks, v, *x),
        Con::Watchsumleq(v, k) => with_one(Con::Watchsumgeq, v, *k + 1),
        Con::Watchsumgeq(v, k) => with_one(Con::Watchsumleq, v, *k - 1),
        Con::Occurrenceleq(v, k, k2) => with_two(Con::Occurrencegeq, v, *k, *k2 + 1),
        Con::Occurrencegeq(v, k, k2) => with_two(Con::Occurrenceleq, v, *k, *k2 - 1),
        Con::Table(v, tab) => tabled(Con::Negativetable, v, tab),
        Con::Negativetable(v, tab) => tabled(Con::Table, v, tab),
        Con::Lexleq(v, w) => of_two(Con::Lexless, w, v),
        Con::Lexless(v, w) => of_two(Con::Lexleq, w, v),
        Con::WLiteral(x, k) => Ok(Con::WNotliteral(*x, *k)),
        Con::WNotliteral(x, k) => Ok(Con::WLiteral(*x, *k)),
        Con::WInset(x, ks) => in_set(Con::WNotinset, *x, ks),
        Con::WNotinset(x, ks) => in_set(Con::WInset, *x, ks),
        Con::WInrange(x, k, k2) => Ok(Con::WNotinrange(*x, *k, *k2)),
        Con::WNotinrange(x, k, k2) => Ok(Con::WInrange(*x, *k, *k2)),
        Con::Always => Ok(Con::Never),
        Con::Never => Ok(Con::Always),
        Con::WatchedOr(children) => Ok(Con::WatchedAnd(reverse_each(alloc, children)?)),
        Con::WatchedAnd(children) => Ok(Con::WatchedOr(reverse_each(alloc, children)?)),
        Con::Reify(part, r) => reified(alloc, part.get(), other(*r)),
        Con::Reifyimply(part, r) => {
            let reversed = reverse(alloc, part.get())?;
            in_force_without(alloc, *r, reversed)
        }
        Con::Negated(part) => part.get().copy(alloc),
        Con::Minuseq(_, _) => negated(alloc, con),
        Con::Abs(_, _) => negated(alloc, con),
        Con::Difference(_, _, _) => negated(alloc, con),
        Con::Product(_, _, _) => negated(alloc, con),
        Con::Div(_, _, _) => negated(alloc, con),
        Con::Modulo(_, _, _) => negated(alloc, con),
        Con::Max(_, _) => negated(alloc, con),
        Con::Min(_, _) => negated(alloc, con),
        Con::Litsumgeq(_, _, _) => negated(alloc, con),
        Con::Element(_, _, _) => negated(alloc, con),
        Con::Watchelement(_, _, _) => negated(alloc, con),
        Con::ElementOne(_, _, _) => negated(alloc, con),
        Con::WatchelementOne(_, _, _) => negated(alloc, con),
        Con::Alldiff(_) => negated(alloc, con),
        Con::Watchvecneq(_, _) => negated(alloc, con),
        Con::Hamming(_, _, _) => negated(alloc, con),
        Con::Occurrence(_, _, _) => negated(alloc, con),
        Con::Nvalueleq(_, _) => negated(alloc, con),
        Con::WInintervalset(_, _) => negated(alloc, con),
    }
}

// The constraint that says of a leaf that it doesn't hold.
fn negated(alloc: Global, con: &Con) -> Result<Con, AllocError>
    ensures { IfOk result (λ whole. whole ≡ negated con.now) }
{
    Ok(Con::Negated(Boxed::new(alloc, con.copy(alloc)?)?))
}

// The constraint that a 0/1 term is 1 exactly where another holds.
fn reified(alloc: Global, con: &Con, r: Term) -> Result<Con, AllocError>
    ensures { IfOk result (λ whole. whole ≡ reified con.now r) }
{
    Ok(Con::Reify(Boxed::new(alloc, con.copy(alloc)?)?, r))
}

#[cycle(reversing)]
fn reverse_each(alloc: Global, children: &Cons) -> Result<Cons, AllocError>
    requires { HaveNearConstants children.now }
    ensures { IfOk result (λ reversed. reversed ≡ negations children.now) }
{
    let mut reversed = Vec::new(alloc);
    let mut rest = children;
    while let Cons::More(first, others) = rest {
        reversed.push(reverse(alloc, first.get())?)?;
        rest = others.get();
    }
    Cons::of(alloc, reversed)
}

// The literal that a 0/1 term is 1, together with a constraint.
fn in_force_without(alloc: Global, r: Term, reversed: Con) -> Result<Con, AllocError>
    ensures { IfOk result (λ con. con ≡ WatchedAnd (more (WLiteral r (pos 1)) (more reversed End))) }
{
    let last = Cons::More(Boxed::new(alloc, reversed)?, Boxed::new(alloc, Cons::End)?);
    let literal = Boxed::new(alloc, Con::WLiteral(r, 1))?;
    Ok(Con::WatchedAnd(Cons::More(literal, Boxed::new(alloc, last)?)))
}

// The other of the values 0 and 1.
fn other(r: Term) -> Term
    requires { IsNearTerm r }
    ensures { result ≡ other r }
{
    match r {
        Term::Var(v) => Term::Not(v),
        Term::Const(k) => Term::Const(1 - k),
        Term::Not(v) => Term::Var(v),
    }
}

fn ones(alloc: Global, count: usize) -> Result<Ints, AllocError>
    ensures { IfOk result (λ ks. ks ≡ replicate count (pos 1)) }
{
    Ok(Ints::of(vec![in alloc; 1; count]?))
}

// The same of a vector whose entries all have the weight 1.
fn sum_above(alloc: Global, v: &Terms, x: Term) -> Result<Con, AllocError>
    ensures { IfOk result (λ con. con ≡ at_least_above (ones v.now) v.now x) }
{
    at_least_above(&ones(alloc, v.len())?, v, x)
}

fn sum_below(alloc: Global, v: &Terms, x: Term) -> Result<Con, AllocError>
    ensures { IfOk result (λ con. con ≡ at_most_below (ones v.now) v.now x) }
{
    at_most_below(&ones(alloc, v.len())?, v, x)
}

// The sum of a vector less x is at least 1.
fn at_least_above(ks: &Ints, v: &Terms, x: Term) -> Result<Con, AllocError>
    ensures { IfOk result (λ con. con ≡ at_least_above ks.now v.now x) }
{
    let (ks, v) = with_last(ks, v, x)?;
    Ok(Con::Weightedsumgeq(ks, v, Term::Const(1)))
}

// The sum of a vector less x is at most -1.
fn at_most_below(ks: &Ints, v: &Terms, x: Term) -> Result<Con, AllocError>
    ensures { IfOk result (λ con. con ≡ at_most_below ks.now v.now x) }
{
    let (ks, v) = with_last(ks, v, x)?;
    Ok(Con::Weightedsumleq(ks, v, Term::Const(-1)))
}

// The weights and the vector with x as a last place, of the weight -1.
fn with_last(ks: &Ints, v: &Terms, x: Term) -> Result<(Ints, Terms), AllocError>
    ensures { IfOk result (λ both. (both.0 ≡ ks.now ++ negsuc 0 ∷ []) × (both.1 ≡ v.now ++ x ∷ [])) }
{
    let mut weights = ks.copy()?;
    weights.push(-1)?;
    let mut places = v.copy()?;
    places.push(x)?;
    Ok((weights, places))
}
