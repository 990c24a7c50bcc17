//! The dimensions of an alias.
ghost use Rattle.std.specs.Prelude.{◌≡◌, ◌≤◌, length, pos, IfOk};
ghost use Rattle.std.specs.List.{AllByRecursion};
ghost use Rattle.mn_grammar.specs.Gives.{Gives};
ghost use Rattle.mn_grammar.specs.Reading.{number_at};
ghost use Rattle.mn_cursor.specs.Progress.{rest, Moves};
ghost use Rattle.mn_decls.specs.Variables.{alias_dim, alias_dims_at};

use mn_cursor::Cursor;
use mn_grammar::{Kind, Stop};
use mn_lexer::Mark;
use mn_model::Dims;

/// The condition on a dimension of an alias.
fn alias_dim(dim: i64) -> Option<Kind>
    ensures { result ≡ alias_dim dim }
{
    if dim < 1 { Some(Kind::Shape) } else { None }
}

/// Reads a dimension of an alias.
#[tactic(auto, using(mn_cursor::proofs::Looking::unseen_stops, mn_cursor::proofs::Looking::seen_stops, mn_cursor::proofs::Looking::seen_reads), unfolding(mn_grammar::specs::Reading::number_at))]
fn dim_of_alias(c: &mut Cursor) -> Result<u32, Stop>
    ensures moves { Moves c.old c.new }
    ensures gives { Gives (λ n. (pos n, rest c.new)) result (number_at alias_dim (rest c.old)) }
    ensures least { IfOk result (λ n. 1 ≤ n) }
{
    let dim = c.number()?;
    c.accept(alias_dim(dim))?;
    Ok(dim as u32)
}

/// Reads the dimensions of an alias, after the mark that opens them.
pub fn alias_dims(c: &mut Cursor) -> Result<Dims, Stop>
    ensures moves { Moves c.old c.new }
    ensures gives { Gives (λ dims. (dims, rest c.new)) result (alias_dims_at (rest c.old)) }
    ensures shaped { IfOk result (AllByRecursion (λ dim. 1 ≤ dim)) }
    ensures some { IfOk result (λ dims. 1 ≤ length dims) }
{
    let mut dims = Dims::new(c.alloc());
    loop {
        let dim = dim_of_alias(c)?;
        dims.push(dim)?;
        let more = c.comma(Mark::CloseSquare)?;
        if !more {
            return Ok(dims);
        }
    }
}
