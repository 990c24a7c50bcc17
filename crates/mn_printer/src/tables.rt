//! Tuple lists, and the tables of constraints.
ghost use Rattle.std.specs.Prelude.{◌≡◌, ◌<◌, ◌++◌, codes, length, map, slice_get, OnOk};
ghost use Rattle.std.specs.List.{flat_map};
ghost use Rattle.mn_model.specs.Lawful.{IsLawfulTuples};
ghost use Rattle.mn_sections.specs.Matrices.{rows_of};
ghost use Rattle.mn_canonical.specs.Lists.{braced, with_commas};
ghost use Rattle.mn_printer.specs.Pages.{onto};
ghost use Rattle.mn_sections.specs.Matrices.{tuple_count, tuples_of};
ghost use Rattle.mn_canonical.specs.Tables.{list_name, table_text, tuple_line, tuple_list_text, tuple_text};

use crate::lists::{row_and_rest, separated, with_commas};
use crate::names::name;
use crate::page::Page;
use mn_model::{Instance, Tab, Tuples};
use std::alloc::AllocError;

/// Writes a table.
pub(crate) fn table(page: &mut Page, inst: &Instance, tab: &Tab) -> Result<(), AllocError>
    ensures { OnOk result (page.new ≡ onto page.old (table_text inst.now tab.now)) }
{
    match tab {
        Tab::Named(n) => list_called(page, inst, *n as usize),
        Tab::Here { arity, cells } => {
            literal_table(page, inst, *arity as usize, cells.as_slice())
        }
    }
}

// Writes the name of a tuple list. A number of none has no text: no instance speaks of it.
fn list_called(page: &mut Page, inst: &Instance, n: usize) -> Result<(), AllocError>
    ensures { OnOk result (page.new ≡ onto page.old (list_name (slice_get inst.now.tuples n))) }
{
    inst.lawful();
    match inst.tuples().get(n) {
        Some(list) => name(page, list.name.as_slice()),
        None => Ok(()),
    }
}

#[tactic(auto, using(crate::proofs::Joining::onto_joined), unfolding(mn_canonical::specs::Lists::braced))]
fn literal_table(
    page: &mut Page,
    inst: &Instance,
    arity: usize,
    cells: &[i64],
) -> Result<(), AllocError>
    ensures { OnOk result (page.new ≡ onto page.old (braced (map tuple_text (tuples_of arity cells.now)))) }
{
    page.put(b"{")?;
    tuples(page, inst, arity, cells)?;
    page.put(b"}")
}

fn tuples(page: &mut Page, inst: &Instance, arity: usize, cells: &[i64]) -> Result<(), AllocError>
    ensures { OnOk result (page.new ≡ onto page.old (with_commas (map tuple_text (tuples_of arity cells.now)))) }
{
    let count = count_of(arity, cells);
    if count == 0 {
        return Ok(());
    }
    let (first, others) = row_and_rest(cells, arity);
    tuple(page, inst, first)?;
    further_tuples(page, inst, arity, count - 1, others)
}

// How many tuples of a length there are.
fn count_of(arity: usize, cells: &[i64]) -> usize
    ensures { result ≡ tuple_count arity cells.now }
{
    cells.len().checked_div(arity).unwrap_or(0)
}

#[tactic(auto, using(crate::proofs::Joining::onto_joined))]
fn tuple(page: &mut Page, inst: &Instance, row: &[i64]) -> Result<(), AllocError>
    ensures { OnOk result (page.new ≡ onto page.old (tuple_text row.now)) }
{
    page.put(b"<")?;
    with_commas(page, inst, row)?;
    page.put(b">")
}

// Writes so many tuples with a comma before each.
fn further_tuples(
    page: &mut Page,
    inst: &Instance,
    arity: usize,
    count: usize,
    cells: &[i64],
) -> Result<(), AllocError>
    ensures { OnOk result (page.new ≡ onto page.old (flat_map (λ y. codes "," ++ y) (map tuple_text (rows_of arity count cells.now)))) }
{
    let mut left = count;
    let mut rest = cells;
    while left > 0 {
        let (row, others) = row_and_rest(rest, arity);
        page.put(b",")?;
        tuple(page, inst, row)?;
        rest = others;
        left -= 1;
    }
    Ok(())
}

/// Writes a tuple list.
#[tactic(auto, using(crate::proofs::Joining::onto_joined))]
pub(crate) fn tuple_list(page: &mut Page, inst: &Instance, list: &Tuples) -> Result<(), AllocError>
    requires { IsLawfulTuples list.now }
    ensures { OnOk result (page.new ≡ onto page.old (tuple_list_text list.now)) }
{
    let arity = list.arity as usize;
    let cells = list.cells.as_slice();
    let count = count_of(arity, cells);
    name(page, list.name.as_slice())?;
    page.put(b" ")?;
    page.put_count(count as u64)?;
    page.put(b" ")?;
    page.put_count(list.arity)?;
    page.put(b"\n")?;
    tuple_lines(page, inst, arity, count, cells)
}

// Writes so many tuples, each on a line.
fn tuple_lines(
    page: &mut Page,
    inst: &Instance,
    arity: usize,
    count: usize,
    cells: &[i64],
) -> Result<(), AllocError>
    ensures { OnOk result (page.new ≡ onto page.old (flat_map tuple_line (rows_of arity count cells.now))) }
{
    let mut left = count;
    let mut rest = cells;
    while left > 0 {
        let (row, others) = row_and_rest(rest, arity);
        separated(page, inst, b" ", row)?;
        page.put(b"\n")?;
        rest = others;
        left -= 1;
    }
    Ok(())
}
