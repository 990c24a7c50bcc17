//! The tuples of a table, each once.
ghost use Rattle.std.specs.Prelude.{◌≡◌, ◌≤◌, IfOk, List, ℤ, length};
ghost use Rattle.std.specs.List.{AllByRecursion};
ghost use Rattle.std.specs.Set.{is_member};
ghost use Rattle.mn_meaning.specs.Families.{rows_of};
ghost use Rattle.mn_table.specs.Choosing.{row_eq, rows_in};

use indexmap::IndexSet;
use std::alloc::{AllocError, Global};

/// The tuples that cells make, each once.
pub(crate) fn rows_once(
    alloc: Global,
    cells: &[i64],
    arity: usize,
) -> Result<IndexSet<Vec<i64>>, AllocError>
    requires { 1 ≤ arity }
    ensures level { IfOk result (λ rows. AllByRecursion (λ row. length row ≡ arity) (rows_in rows.keys)) }
    ensures same { IfOk result (λ rows. (q : List ℤ) → is_member row_eq (rows_in rows.keys) q ≡ is_member row_eq (rows_of arity cells.now) q) }
{
    let mut rows = IndexSet::new(alloc);
    let mut rest = cells;
    while rest.len() >= arity {
        let (row, others) = rest.split_at(arity);
        rows.insert(Vec::from_slice(alloc, row)?)?;
        rest = others;
    }
    Ok(rows)
}
