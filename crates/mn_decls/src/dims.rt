//! The dimensions of a declaration.
ghost use Rattle.std.specs.Prelude.{◌≡◌, ◌+◌, ◌*◌, ◌≤◌, pos, IfOk};
ghost use Rattle.std.specs.List.{AllByRecursion};
ghost use Rattle.mn_grammar.specs.Gives.{Gives};
ghost use Rattle.mn_model.specs.Domain.{IsValue};
ghost use Rattle.mn_model.specs.Problem.{size_of_dims, variable_count};
ghost use Rattle.mn_model.specs.declared.limits.TheConstants.{VARIABLES};
ghost use Rattle.mn_cursor.specs.Progress.{rest, Moves};
ghost use Rattle.mn_decls.specs.Variables.{dim_at, dims_at, dims_list_at, fair_dim};

use crate::shape::Shape;
use mn_cursor::Cursor;
use mn_grammar::{Kind, Limit, Stop};
use mn_lexer::Mark;
use mn_model::{Dims, Instance, VARIABLES};

/// The condition on a dimension after others.
fn fair_dim(inst: &Instance, before: &Shape, dim: i64) -> Option<Kind>
    requires size { size_of_dims before.now ≤ VARIABLES }
    requires dim { IsValue dim }
    ensures { result ≡ fair_dim inst.now before.now dim }
{
    if dim < 1 {
        Some(Kind::Shape)
    } else if i64::from(inst.vars()) + before.size() as i64 * dim > i64::from(VARIABLES) {
        Some(Kind::Limit(Limit::Variables))
    } else {
        None
    }
}

/// Reads a dimension after others.
#[tactic(auto, using(mn_cursor::proofs::Looking::unseen_stops, mn_cursor::proofs::Looking::seen_stops, mn_cursor::proofs::Looking::seen_reads), unfolding(mn_grammar::specs::Reading::number_at))]
fn dim(c: &mut Cursor, before: &Shape) -> Result<u32, Stop>
    requires some { 1 ≤ size_of_dims before.now }
    requires room { variable_count c.old.problem.decls + size_of_dims before.now ≤ VARIABLES }
    ensures moves { Moves c.old c.new }
    ensures gives { Gives (λ n. (pos n, rest c.new)) result (dim_at c.old.problem before.now (rest c.old)) }
    ensures least { IfOk result (λ n. 1 ≤ n) }
    ensures room { IfOk result (λ n. variable_count c.old.problem.decls + size_of_dims before.now * n ≤ VARIABLES) }
{
    let dim = c.number()?;
    c.accept(fair_dim(c.inst(), before, dim))?;
    Ok(dim as u32)
}

/// Reads dimensions after the mark that opens them.
fn dims_list(c: &mut Cursor) -> Result<Dims, Stop>
    requires room { variable_count c.old.problem.decls + 1 ≤ VARIABLES }
    ensures moves { Moves c.old c.new }
    ensures gives { Gives (λ dims. (dims, rest c.new)) result (dims_list_at c.old.problem (rest c.old)) }
    ensures shaped { IfOk result (AllByRecursion (λ dim. 1 ≤ dim)) }
    ensures room { IfOk result (λ dims. variable_count c.old.problem.decls + size_of_dims dims ≤ VARIABLES) }
{
    let mut shape = Shape::new(c.alloc());
    loop {
        let dim = dim(c, &shape)?;
        shape.push(dim)?;
        let more = c.comma(Mark::CloseSquare)?;
        if !more {
            return Ok(shape.into_dims());
        }
    }
}

/// Reads the dimensions of a declaration, which may be left out.
pub fn dims(c: &mut Cursor) -> Result<Dims, Stop>
    requires room { variable_count c.old.problem.decls + 1 ≤ VARIABLES }
    ensures moves { Moves c.old c.new }
    ensures gives { Gives (λ dims. (dims, rest c.new)) result (dims_at c.old.problem (rest c.old)) }
    ensures shaped { IfOk result (AllByRecursion (λ dim. 1 ≤ dim)) }
    ensures room { IfOk result (λ dims. variable_count c.old.problem.decls + size_of_dims dims ≤ VARIABLES) }
{
    if !c.is_mark(Mark::OpenSquare) {
        return Ok(Dims::new(c.alloc()));
    }
    c.mark(Mark::OpenSquare, None)?;
    dims_list(c)
}
