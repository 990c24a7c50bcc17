//! What arguments stand for, and the constraint that a form makes of them.
ghost use Rattle.std.specs.Prelude.{◌≡◌, ◌∷◌, [], Some};
ghost use Rattle.mn_language.specs.Arguments.{number_in, numbers_in, term_of, terms_in, tuples_in};
ghost use Rattle.mn_language.specs.Constraints.{meaning};
ghost use Rattle.mn_language.specs.Values.{value_seen};

use crate::forms::Leaf;
use mn_model::{Con, Ints, Tab, Term, Terms};
use std::alloc::Global;

/// What an argument stands for.
#[derive(Debug, Drop)]
pub enum Value {
    /// No argument stands in this place.
    Nothing,
    /// The places of a term or of a vector.
    Terms(Terms),
    Numbers(Ints),
    Tuples(Tab),
}

impl Value {
    /// The term.
    fn term(&self) -> Term
        ensures { result ≡ term_of (terms_in (Some (value_seen self.now))) }
    {
        match self {
            Value::Terms(terms) => match terms.as_slice() {
                [term, ..] => *term,
                [] => Term::Const(0),
            },
            _ => Term::Const(0),
        }
    }

    /// The number at this place.
    fn number(&self, place: usize) -> i64
        ensures { result ≡ number_in (Some (value_seen self.now)) place }
    {
        match self {
            Value::Numbers(numbers) if place < numbers.len() => *numbers.get(place),
            _ => 0,
        }
    }

    /// The terms of a vector. Nothing else is made in memory of `alloc`.
    fn terms(self, alloc: Global) -> Terms
        ensures { result ≡ terms_in (Some (value_seen self)) }
    {
        match self {
            Value::Terms(terms) => terms,
            _ => Terms::new(alloc),
        }
    }

    /// The numbers.
    fn numbers(self, alloc: Global) -> Ints
        ensures { result ≡ numbers_in (Some (value_seen self)) }
    {
        match self {
            Value::Numbers(numbers) => numbers,
            _ => Ints::new(alloc),
        }
    }

    /// The tuples.
    fn tuples(self, alloc: Global) -> Tab
        ensures { result ≡ tuples_in (Some (value_seen self)) }
    {
        match self {
            Value::Tuples(tuples) => tuples,
            _ => Tab::Here {
                arity: 0,
                cells: Ints::new(alloc),
            },
        }
    }
}

/// The constraint of a form with these arguments, of which the last may be missing.
pub fn meaning(alloc: Global, leaf: Leaf, a: Value, b: Value, c: Value) -> Con
    ensures { result ≡ meaning leaf (value_seen a ∷ value_seen b ∷ value_seen c ∷ []) }
{
    match leaf {
        Leaf::Eq => Con::Eq(a.term(), b.term()),
        Leaf::Diseq => Con::Diseq(a.term(), b.term()),
        Leaf::Ineq => Con::Ineq(a.term(), b.term(), c.number(0)),
        Leaf::Watchless => Con::Watchless(a.term(), b.term()),
        Leaf::Minuseq => Con::Minuseq(a.term(), b.term()),
        Leaf::Abs => Con::Abs(a.term(), b.term()),
        Leaf::Difference => Con::Difference(a.term(), b.term(), c.term()),
        Leaf::Product => Con::Product(a.term(), b.term(), c.term()),
        Leaf::Div => Con::Div(a.term(), b.term(), c.term()),
        Leaf::Modulo => Con::Modulo(a.term(), b.term(), c.term()),
        Leaf::Max => Con::Max(a.terms(alloc), b.term()),
        Leaf::Min => Con::Min(a.terms(alloc), b.term()),
        Leaf::Sumleq => Con::Sumleq(a.terms(alloc), b.term()),
        Leaf::Sumgeq => Con::Sumgeq(a.terms(alloc), b.term()),
        Leaf::Weightedsumleq => { Con::Weightedsumleq(a.numbers(alloc), b.terms(alloc), c.term()) }
        Leaf::Weightedsumgeq => { Con::Weightedsumgeq(a.numbers(alloc), b.terms(alloc), c.term()) }
        Leaf::Watchsumleq => Con::Watchsumleq(a.terms(alloc), b.number(0)),
        Leaf::Watchsumgeq => Con::Watchsumgeq(a.terms(alloc), b.number(0)),
        Leaf::Litsumgeq => Con::Litsumgeq(a.terms(alloc), b.numbers(alloc), c.number(0)),
        Leaf::Element => Con::Element(a.terms(alloc), b.term(), c.term()),
        Leaf::Watchelement => Con::Watchelement(a.terms(alloc), b.term(), c.term()),
        Leaf::ElementOne => Con::ElementOne(a.terms(alloc), b.term(), c.term()),
        Leaf::WatchelementOne => Con::WatchelementOne(a.terms(alloc), b.term(), c.term()),
        Leaf::Table => Con::Table(a.terms(alloc), b.tuples(alloc)),
        Leaf::Negativetable => Con::Negativetable(a.terms(alloc), b.tuples(alloc)),
        Leaf::Alldiff => Con::Alldiff(a.terms(alloc)),
        Leaf::Lexleq => Con::Lexleq(a.terms(alloc), b.terms(alloc)),
        Leaf::Lexless => Con::Lexless(a.terms(alloc), b.terms(alloc)),
        Leaf::Watchvecneq => Con::Watchvecneq(a.terms(alloc), b.terms(alloc)),
        Leaf::Hamming => Con::Hamming(a.terms(alloc), b.terms(alloc), c.number(0)),
        Leaf::Occurrence => Con::Occurrence(a.terms(alloc), b.number(0), c.term()),
        Leaf::Occurrenceleq => Con::Occurrenceleq(a.terms(alloc), b.number(0), c.number(0)),
        Leaf::Occurrencegeq => Con::Occurrencegeq(a.terms(alloc), b.number(0), c.number(0)),
        Leaf::Nvalueleq => Con::Nvalueleq(a.terms(alloc), b.term()),
        Leaf::WLiteral => Con::WLiteral(a.term(), b.number(0)),
        Leaf::WNotliteral => Con::WNotliteral(a.term(), b.number(0)),
        Leaf::WInset => Con::WInset(a.term(), b.numbers(alloc)),
        Leaf::WNotinset => Con::WNotinset(a.term(), b.numbers(alloc)),
        Leaf::WInrange => Con::WInrange(a.term(), b.number(0), b.number(1)),
        Leaf::WNotinrange => Con::WNotinrange(a.term(), b.number(0), b.number(1)),
        Leaf::WInintervalset => Con::WInintervalset(a.term(), b.numbers(alloc)),
        Leaf::Always => Con::Always,
        Leaf::Never => Con::Never,
    }
}
