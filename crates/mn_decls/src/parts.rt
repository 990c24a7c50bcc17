//! The parts of a domain in braces: single values and stretches, in ascending order.
ghost use Rattle.std.specs.Prelude.{◌≡◌, ◌≤◌, ◌≤ℤ◌, [], length, None, IfOk};
ghost use Rattle.std.specs.List.{AllByRecursion};
ghost use Rattle.mn_grammar.specs.Gives.{Gives};
ghost use Rattle.mn_grammar.specs.Reading.{number_at};
ghost use Rattle.mn_model.specs.Domain.{Ascends, IsValue};
ghost use Rattle.mn_model.specs.Lawful.{SuitsKind};
ghost use Rattle.mn_model.specs.declared.limits.TheConstants.{SPAN};
ghost use Rattle.mn_model.specs.declared.variable.Kind.TheVariants.{Sparse};
ghost use Rattle.mn_cursor.specs.Progress.{rest, Moves};
ghost use Rattle.mn_decls.specs.Variables.{fair_first, fair_last, part_at, parts_at, parts_list_at, with_range};

use crate::values::Values;
use mn_cursor::Cursor;
use mn_grammar::{Kind, Limit, Stop};
use mn_lexer::Mark;
use mn_model::{Domain, SPAN};

/// The condition on the first number of a part, by the values before.
fn fair_first(values: &Values, first: i64) -> Option<Kind>
    requires few { length values.now ≤ SPAN }
    requires value { IsValue first }
    ensures { result ≡ fair_first values.now first }
{
    if values.size_with(first, first) > SPAN {
        Some(Kind::Limit(Limit::Span))
    } else {
        None
    }
}

/// The condition on the second number of a part.
fn fair_last(values: &Values, first: i64, last: i64) -> Option<Kind>
    requires few { length values.now ≤ SPAN }
    requires first { IsValue first }
    requires last { IsValue last }
    ensures { result ≡ fair_last values.now first last }
{
    if last < first {
        Some(Kind::EmptyDomain)
    } else if values.size_with(first, last) > SPAN {
        Some(Kind::Limit(Limit::Span))
    } else {
        None
    }
}

/// Reads the first number of a part.
#[tactic(auto, using(mn_cursor::proofs::Looking::unseen_stops, mn_cursor::proofs::Looking::seen_stops, mn_cursor::proofs::Looking::seen_reads), unfolding(mn_grammar::specs::Reading::number_at))]
fn first(c: &mut Cursor, values: &Values) -> Result<i64, Stop>
    requires { length values.now ≤ SPAN }
    ensures moves { Moves c.old c.new }
    ensures gives { Gives (λ n. (n, rest c.new)) result (number_at (fair_first values.now) (rest c.old)) }
    ensures value { IfOk result IsValue }
    ensures fair { IfOk result (λ n. fair_first values.now n ≡ None) }
{
    let number = c.number()?;
    c.accept(fair_first(values, number))?;
    Ok(number)
}

/// Reads the second number of a part.
#[tactic(auto, using(mn_cursor::proofs::Looking::unseen_stops, mn_cursor::proofs::Looking::seen_stops, mn_cursor::proofs::Looking::seen_reads), unfolding(mn_grammar::specs::Reading::number_at))]
fn last(c: &mut Cursor, values: &Values, first: i64) -> Result<i64, Stop>
    requires few { length values.now ≤ SPAN }
    requires first { IsValue first }
    ensures moves { Moves c.old c.new }
    ensures gives { Gives (λ n. (n, rest c.new)) result (number_at (fair_last values.now first) (rest c.old)) }
    ensures value { IfOk result IsValue }
    ensures fair { IfOk result (λ n. fair_last values.now first n ≡ None) }
{
    let number = c.number()?;
    c.accept(fair_last(values, first, number))?;
    Ok(number)
}

/// Reads a part, and answers its ends.
fn part(c: &mut Cursor, values: &Values) -> Result<(i64, i64), Stop>
    requires few { length values.now ≤ SPAN }
    ensures moves { Moves c.old c.new }
    ensures gives { Gives (λ part. (part, rest c.new)) result (part_at values.now (rest c.old)) }
    ensures low { IfOk result (λ part. IsValue part.0) }
    ensures high { IfOk result (λ part. IsValue part.1) }
    ensures ordered { IfOk result (λ part. part.0 ≤ℤ part.1) }
    ensures room { IfOk result (λ part. length (with_range values.now part.0 part.1) ≤ SPAN) }
{
    let lo = first(c, values)?;
    if !c.is_mark(Mark::Dots) {
        return Ok((lo, lo));
    }
    c.mark(Mark::Dots, None)?;
    let hi = last(c, values, lo)?;
    Ok((lo, hi))
}

/// Reads one part or more, and the mark that closes them.
fn parts_list(c: &mut Cursor) -> Result<Values, Stop>
    ensures moves { Moves c.old c.new }
    ensures gives { Gives (λ values. (values, rest c.new)) result (parts_list_at (rest c.old)) }
    ensures few { IfOk result (λ values. length values ≤ SPAN) }
    ensures filled { IfOk result (λ values. values ≡ [] → ⊥) }
{
    let mut values = Values::new(c.alloc());
    loop {
        let (lo, hi) = part(c, &values)?;
        values = values.with(lo, hi)?;
        let more = c.comma(Mark::CloseCurly)?;
        if !more {
            return Ok(values);
        }
    }
}

/// Reads the parts of a domain in their brackets.
pub fn parts(c: &mut Cursor) -> Result<Domain, Stop>
    ensures moves { Moves c.old c.new }
    ensures gives { Gives (λ values. (values, rest c.new)) result (parts_at (rest c.old)) }
    ensures suits { IfOk result (SuitsKind Sparse) }
{
    c.mark(Mark::OpenCurly, None)?;
    if c.is_mark(Mark::CloseCurly) {
        return Err(c.refused(Kind::EmptyDomain));
    }
    let values = parts_list(c)?;
    Ok(Domain::listed(values.into_ints()))
}
