//! The forms of constraints, and the kinds of arguments that they take.

/// A form of constraint that has no others inside.
#[derive(Clone, Copy, Debug, PartialEq, Eq)]
pub enum Leaf {
    Eq,
    Diseq,
    Ineq,
    Watchless,
    Minuseq,
    Abs,
    Difference,
    Product,
    Div,
    Modulo,
    Max,
    Min,
    Sumleq,
    Sumgeq,
    Weightedsumleq,
    Weightedsumgeq,
    Watchsumleq,
    Watchsumgeq,
    Litsumgeq,
    Element,
    Watchelement,
    ElementOne,
    WatchelementOne,
    Table,
    Negativetable,
    Alldiff,
    Lexleq,
    Lexless,
    Watchvecneq,
    Hamming,
    Occurrence,
    Occurrenceleq,
    Occurrencegeq,
    Nvalueleq,
    WLiteral,
    WNotliteral,
    WInset,
    WNotinset,
    WInrange,
    WNotinrange,
    WInintervalset,
    Always,
    Never,
}

/// A form of any number of constraints.
#[derive(Clone, Copy, Debug, PartialEq, Eq)]
pub enum Gather {
    Or,
    And,
}

/// A form of one constraint and a 0/1 term.
#[derive(Clone, Copy, Debug, PartialEq, Eq)]
pub enum Tie {
    Reify,
    Reifyimply,
}

/// A form of constraint.
#[derive(Clone, Copy, Debug, PartialEq, Eq)]
pub enum Form {
    Leaf(Leaf),
    Gather(Gather),
    Tie(Tie),
}

/// What is wanted of a vector.
#[derive(Clone, Copy, Debug, PartialEq, Eq)]
pub enum Places {
    /// Any number of places.
    Any,
    /// One at least.
    Some,
    /// 0/1 terms.
    Bits,
    /// As many as the first argument has.
    Alike,
}

/// What is wanted of a list of numbers.
#[derive(Clone, Copy, Debug, PartialEq, Eq)]
pub enum Numbers {
    /// Any number of them.
    Any,
    /// Pairs.
    Pairs,
    /// One for each place of the vector after it.
    Weights,
    /// As many as the first argument has.
    Alike,
}

/// What a form takes in one place.
#[derive(Clone, Copy, Debug, PartialEq, Eq)]
pub enum Argument {
    Term,
    Vector(Places),
    Number,
    Numbers(Numbers),
    /// Two numbers in brackets.
    Range,
    /// The tuples of a table, as long as the first argument.
    Tuples,
}

/// All forms of constraint.
pub const FORMS: [Form; 47] = [
    Form::Leaf(Leaf::Eq),
    Form::Leaf(Leaf::Diseq),
    Form::Leaf(Leaf::Ineq),
    Form::Leaf(Leaf::Watchless),
    Form::Leaf(Leaf::Minuseq),
    Form::Leaf(Leaf::Abs),
    Form::Leaf(Leaf::Difference),
    Form::Leaf(Leaf::Product),
    Form::Leaf(Leaf::Div),
    Form::Leaf(Leaf::Modulo),
    Form::Leaf(Leaf::Max),
    Form::Leaf(Leaf::Min),
    Form::Leaf(Leaf::Sumleq),
    Form::Leaf(Leaf::Sumgeq),
    Form::Leaf(Leaf::Weightedsumleq),
    Form::Leaf(Leaf::Weightedsumgeq),
    Form::Leaf(Leaf::Watchsumleq),
    Form::Leaf(Leaf::Watchsumgeq),
    Form::Leaf(Leaf::Litsumgeq),
    Form::Leaf(Leaf::Element),
    Form::Leaf(Leaf::Watchelement),
    Form::Leaf(Leaf::ElementOne),
    Form::Leaf(Leaf::WatchelementOne),
    Form::Leaf(Leaf::Table),
    Form::Leaf(Leaf::Negativetable),
    Form::Leaf(Leaf::Alldiff),
    Form::Leaf(Leaf::Lexleq),
    Form::Leaf(Leaf::Lexless),
    Form::Leaf(Leaf::Watchvecneq),
    Form::Leaf(Leaf::Hamming),
    Form::Leaf(Leaf::Occurrence),
    Form::Leaf(Leaf::Occurrenceleq),
    Form::Leaf(Leaf::Occurrencegeq),
    Form::Leaf(Leaf::Nvalueleq),
    Form::Leaf(Leaf::WLiteral),
    Form::Leaf(Leaf::WNotliteral),
    Form::Leaf(Leaf::WInset),
    Form::Leaf(Leaf::WNotinset),
    Form::Leaf(Leaf::WInrange),
    Form::Leaf(Leaf::WNotinrange),
    Form::Leaf(Leaf::WInintervalset),
    Form::Leaf(Leaf::Always),
    Form::Leaf(Leaf::Never),
    Form::Gather(Gather::Or),
    Form::Gather(Gather::And),
    Form::Tie(Tie::Reify),
    Form::Tie(Tie::Reifyimply),
];
