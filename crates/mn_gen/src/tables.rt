//! A ring of tables.
ghost use Rattle.std.specs.Prelude.{◌≡◌, ◌+◌, ◌%◌, ◌<◌, ◌≤◌, ◌++◌, length, map, IfOk, OnOk};
ghost use Rattle.std.specs.List.{range_with_len};
ghost use Rattle.mn_gen.specs.Generated.{at_row, draw, list_name, state_after, table_of_list, tables};
ghost use Rattle.mn_gen.specs.Rings.{cells_after, ring};

use crate::draws::Draws;
use crate::queens::{at_row, declared};
use mn_model::{Con, Instance, Ints, Tab, Terms, Text};
use std::alloc::{AllocError, Global};

/// How many numbers are drawn for a list: of its 24 triples the first has hidden values.
const DRAWS: u32 = 69;

// The place after `k` on a ring, `by` places on.
fn place_on(n: u32, k: u32, by: u32) -> u32
    requires least { 1 ≤ n }
    requires few { n ≤ 64 }
    requires place { k < n }
    requires near { by ≤ 2 }
    ensures place { result ≡ (k + by) % n }
    ensures within { result < n }
{
    (k + by) % n
}

// The name of a list.
fn list_name(alloc: Global, k: u32) -> Result<Text, AllocError>
    requires { k < 64 }
    ensures { IfOk result (λ name. name ≡ list_name k) }
{
    let mut name = Text::new(alloc);
    name.push('t')?;
    if k >= 10 {
        name.push(digit(k / 10))?;
    }
    name.push(digit(k % 10))?;
    Ok(name)
}

fn digit(d: u32) -> char
    requires { d < 10 }
    ensures { result ≡ 48 + d }
{
    (b'0' + d as u8) as char
}

// So many numbers that are drawn, after those that are there.
fn draw_more(draws: &mut Draws, count: u32, cells: &mut Ints) -> Result<(), AllocError>
    ensures state { OnOk result (draws.new.state ≡ state_after draws.old.state count) }
    ensures cells { OnOk result (cells.new ≡ cells.old ++ map (draw draws.old.state) (range_with_len 0 count)) }
{
    for _ in 0..count {
        cells.push(draws.next())?;
    }
    Ok(())
}

// The hidden values: the first numbers that are drawn.
fn hidden_values(alloc: Global, draws: &mut Draws, n: u32) -> Result<Ints, AllocError>
    ensures state { OnOk result (draws.new.state ≡ state_after draws.old.state n) }
    ensures values { IfOk result (λ hidden. hidden ≡ map (draw draws.old.state) (range_with_len 0 n)) }
{
    let mut hidden = Ints::new(alloc);
    draw_more(draws, n, &mut hidden)?;
    Ok(hidden)
}

// The cells of a list: the hidden values at its three places, and then what is drawn.
fn cells_of(
    alloc: Global,
    hidden: &Ints,
    draws: &mut Draws,
    n: u32,
    k: u32,
) -> Result<Ints, AllocError>
    requires least { 1 ≤ n }
    requires few { n ≤ 64 }
    requires place { k < n }
    requires hidden { length hidden.now ≡ n }
    ensures state { OnOk result (draws.new.state ≡ state_after draws.old.state 69) }
    ensures cells { IfOk result (λ cells. cells ≡ cells_after hidden.now draws.old.state n k) }
{
    let mut cells = Ints::new(alloc);
    cells.push(*hidden.get(k as usize))?;
    cells.push(*hidden.get(place_on(n, k, 1) as usize))?;
    cells.push(*hidden.get(place_on(n, k, 2) as usize))?;
    draw_more(draws, DRAWS, &mut cells)?;
    Ok(cells)
}

// That three variables one after another stand in a list.
fn table(alloc: Global, n: u32, k: u32) -> Result<Con, AllocError>
    requires least { 1 ≤ n }
    requires few { n ≤ 64 }
    requires place { k < n }
    ensures { IfOk result (λ con. con ≡ table_of_list n k) }
{
    let mut terms = Terms::new(alloc);
    terms.push(at_row(k))?;
    terms.push(at_row(place_on(n, k, 1)))?;
    terms.push(at_row(place_on(n, k, 2)))?;
    Ok(Con::Table(terms, Tab::Named(k)))
}

// Adds the tuple lists.
fn add_lists(alloc: Global, inst: &mut Instance, seed: u64, n: u32) -> Result<(), AllocError>
    requires least { 1 ≤ n }
    requires few { n ≤ 64 }
    requires ring { inst.old ≡ ring seed n 0 0 }
    ensures { OnOk result (inst.new ≡ ring seed n n 0) }
{
    let mut draws = Draws { state: seed };
    let hidden = hidden_values(alloc, &mut draws, n)?;
    for k in 0..n {
        let cells = cells_of(alloc, &hidden, &mut draws, n, k)?;
        inst.tuples_add(list_name(alloc, k)?, 3, cells)?;
    }
    Ok(())
}

// Adds the tuple lists, and then the constraints.
fn fill(alloc: Global, inst: &mut Instance, seed: u64, n: u32) -> Result<(), AllocError>
    requires least { 1 ≤ n }
    requires few { n ≤ 64 }
    requires ring { inst.old ≡ ring seed n 0 0 }
    ensures { OnOk result (inst.new ≡ ring seed n n n) }
{
    add_lists(alloc, inst, seed, n)?;
    for k in 0..n {
        inst.add(table(alloc, n, k)?)?;
    }
    Ok(())
}

/// The ring of `n` variables and tables.
pub(crate) fn tables(alloc: Global, seed: u64, n: u32) -> Result<Instance, AllocError>
    requires least { 1 ≤ n }
    requires few { n ≤ 64 }
    ensures { IfOk result (λ inst. inst ≡ tables seed n) }
{
    let mut inst = declared(alloc, 'v', n, 3)?;
    fill(alloc, &mut inst, seed, n)?;
    Ok(inst)
}
