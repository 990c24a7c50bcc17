//! Terms, and the forms of constraints.
use super::{Ints, Terms};
use sqlite_items::Boxed;

/// What a constraint may name in one place.
#[derive(Clone, Copy, Debug, PartialEq, Eq)]
pub enum Term {
    /// The value of a variable.
    Var(super::VarId),
    /// A number.
    Const(i64),
    /// One less the value of a variable, whose values are 0 and 1.
    Not(super::VarId),
}

/// A constraint, with a variant for each written form and the form's arguments in order. Each variant says where it
/// holds: in that order x, y, z and r are its terms, v and w its vectors, k and k2 its numbers, ks its list of
/// numbers and C the constraint inside. In an instance two lists that are compared place by place are as long as
/// each other.
#[cycle(con)]
pub enum Con {
    /// x = y.
    Eq(Term, Term),
    /// x differs from y.
    Diseq(Term, Term),
    /// x is at most y + k.
    Ineq(Term, Term, i64),
    /// x is less than y.
    Watchless(Term, Term),
    /// x = -y.
    Minuseq(Term, Term),
    /// x is the absolute value of y.
    Abs(Term, Term),
    /// z is the absolute value of x - y.
    Difference(Term, Term, Term),
    /// z = x times y.
    Product(Term, Term, Term),
    /// y isn't 0, and z is x divided by y, rounded down.
    Div(Term, Term, Term),
    /// y isn't 0, and z is what x is above y times the quotient, rounded down.
    Modulo(Term, Term, Term),
    /// x is the greatest entry of v. Never of an empty v.
    Max(Terms, Term),
    /// x is the least entry of v. Never of an empty v.
    Min(Terms, Term),
    /// The sum of v is at most x.
    Sumleq(Terms, Term),
    /// The sum of v is at least x.
    Sumgeq(Terms, Term),
    /// The sum of the entries of v, each times the number at its place in ks, is at most x.
    Weightedsumleq(Ints, Terms, Term),
    /// The sum of the entries of v, each times the number at its place in ks, is at least x.
    Weightedsumgeq(Ints, Terms, Term),
    /// The sum of v, whose entries are 0/1 terms, is at most k.
    Watchsumleq(Terms, i64),
    /// The sum of v, whose entries are 0/1 terms, is at least k.
    Watchsumgeq(Terms, i64),
    /// At least k entries of v are the number at their place in ks.
    Litsumgeq(Terms, Ints, i64),
    /// v has an entry at the index x, counted from 0, and it is y.
    Element(Terms, Term, Term),
    /// v has an entry at the index x, counted from 0, and it is y.
    Watchelement(Terms, Term, Term),
    /// v has an entry at the index x, counted from 1, and it is y.
    ElementOne(Terms, Term, Term),
    /// v has an entry at the index x, counted from 1, and it is y.
    WatchelementOne(Terms, Term, Term),
    /// v is one of the tuples.
    Table(Terms, Tab),
    /// v is none of the tuples.
    Negativetable(Terms, Tab),
    /// No two entries of v are equal.
    Alldiff(Terms),
    /// v comes before w in lexicographic order, or is w.
    Lexleq(Terms, Terms),
    /// v comes before w in lexicographic order.
    Lexless(Terms, Terms),
    /// v and w differ at some place.
    Watchvecneq(Terms, Terms),
    /// v and w differ at k places or more.
    Hamming(Terms, Terms, i64),
    /// Exactly x entries of v are k.
    Occurrence(Terms, i64, Term),
    /// At most k2 entries of v are k.
    Occurrenceleq(Terms, i64, i64),
    /// At least k2 entries of v are k.
    Occurrencegeq(Terms, i64, i64),
    /// v has at most x different values.
    Nvalueleq(Terms, Term),
    /// x = k.
    WLiteral(Term, i64),
    /// x differs from k.
    WNotliteral(Term, i64),
    /// x is one of ks.
    WInset(Term, Ints),
    /// x is none of ks.
    WNotinset(Term, Ints),
    /// x is from k to k2. Never where k2 is below k.
    WInrange(Term, i64, i64),
    /// x is below k or above k2.
    WNotinrange(Term, i64, i64),
    /// x is from the first to the second number of some pair of ks, whose numbers stand pair after pair.
    WInintervalset(Term, Ints),
    /// Holds always.
    Always,
    /// Holds never.
    Never,
    /// Some of the children holds. Never without children.
    WatchedOr(Cons),
    /// Each of the children holds. Always without children.
    WatchedAnd(Cons),
    /// r, a 0/1 term, is 1 exactly where C holds.
    Reify(Boxed<Con>, Term),
    /// C holds, or r, a 0/1 term, isn't 1.
    Reifyimply(Boxed<Con>, Term),
    /// C doesn't hold. No text has it: `reverse` alone makes it, of a constraint with no constraint inside.
    Negated(Boxed<Con>),
}

/// The children of a nested form, in order.
#[cycle(con)]
pub enum Cons {
    /// No more children.
    End,
    /// The next child, and those after it.
    More(Boxed<Con>, Boxed<Cons>),
}

/// The tuples of a table.
#[derive(Debug, Drop)]
pub enum Tab {
    /// A tuple list, by its number in order of declaration, from 0.
    Named(u32),
    /// Tuples that are written in the constraint.
    Here {
        /// How many numbers each tuple has.
        arity: u32,
        /// The numbers of one tuple after another.
        cells: Ints,
    },
}

impl Drop for Con {
    #[cycle(con)]
    fn drop(self) {
        match self {
            Con::Reify(part, _) | Con::Reifyimply(part, _) | Con::Negated(part) => {
                let _part = part.into_inner();
            }
            Con::WatchedOr(_) | Con::WatchedAnd(_) | Con::Always | Con::Never => {}
            Con::Eq(_, _)
            | Con::Diseq(_, _)
            | Con::Watchless(_, _)
            | Con::Minuseq(_, _)
            | Con::Abs(_, _)
            | Con::WLiteral(_, _)
            | Con::WNotliteral(_, _) => {}
            Con::Ineq(_, _, _)
            | Con::Difference(_, _, _)
            | Con::Product(_, _, _)
            | Con::Div(_, _, _)
            | Con::Modulo(_, _, _)
            | Con::WInrange(_, _, _)
            | Con::WNotinrange(_, _, _) => {}
            Con::Alldiff(_) => {}
            Con::Max(_, _)
            | Con::Min(_, _)
            | Con::Sumleq(_, _)
            | Con::Sumgeq(_, _)
            | Con::Watchsumleq(_, _)
            | Con::Watchsumgeq(_, _)
            | Con::Table(_, _)
            | Con::Negativetable(_, _)
            | Con::Lexleq(_, _)
            | Con::Lexless(_, _)
            | Con::Watchvecneq(_, _)
            | Con::Nvalueleq(_, _)
            | Con::WInset(_, _)
            | Con::WNotinset(_, _)
            | Con::WInintervalset(_, _) => {}
            Con::Weightedsumleq(_, _, _)
            | Con::Weightedsumgeq(_, _, _)
            | Con::Litsumgeq(_, _, _)
            | Con::Element(_, _, _)
            | Con::Watchelement(_, _, _)
            | Con::ElementOne(_, _, _)
            | Con::WatchelementOne(_, _, _)
            | Con::Hamming(_, _, _)
            | Con::Occurrence(_, _, _)
            | Con::Occurrenceleq(_, _, _)
            | Con::Occurrencegeq(_, _, _) => {}
        }
    }
}

impl Drop for Cons {
    // A loop, since a form may have more children than the stack has room for calls.
    #[cycle(con)]
    fn drop(mut self) {
        loop {
            match self {
                Cons::End => return,
                Cons::More(first, others) => {
                    let _first = first.into_inner();
                    self = others.into_inner();
                }
            }
        }
    }
}
