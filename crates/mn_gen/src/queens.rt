//! The queens of a board.
ghost use Rattle.std.specs.Prelude.{◌≡◌, ◌+◌, ◌<◌, ◌≤◌, ◌≤ℤ◌, pos, neg_ℤ, [], ◌∷◌, ◌++◌, ◌⊎◌, length, map, IfOk, OnOk};
ghost use Rattle.std.specs.List.{range_with_len};
ghost use Rattle.mn_model.specs.declared.limits.TheConstants.{CONSTRAINTS};
ghost use Rattle.mn_gen.specs.Boards.{IsBoard};
ghost use Rattle.mn_gen.specs.Generated.{at_row, less_or_more, off_diagonals, pairs_of_row, posing, queens, variables_named};

use mn_model::{Con, Cons, Dims, Domain, Instance, Kind, Term, Terms, Text, VarId};
use sqlite_items::Boxed;
use std::alloc::{AllocError, Global};

// A name of one letter.
pub(crate) fn letter(alloc: Global, c: char) -> Result<Text, AllocError>
    ensures { IfOk result (λ name. name ≡ c ∷ []) }
{
    let mut name = Text::new(alloc);
    name.push(c)?;
    Ok(name)
}

/// The variable of a row.
pub(crate) fn at_row(i: u32) -> Term
    ensures { result ≡ at_row i }
{
    Term::Var(VarId::new(i))
}

/// An instance of so many variables with a name, each from 0 to `most`.
pub(crate) fn declared(alloc: Global, name: char, n: u32, most: u32) -> Result<Instance, AllocError>
    requires least { 1 ≤ n }
    requires few { n ≤ 64 }
    requires small { most ≤ 64 }
    requires letter { (name ≡ 113) ⊎ (name ≡ 118) }
    ensures { IfOk result (λ inst. inst ≡ posing (variables_named (name ∷ []) n most) [] []) }
{
    let mut dims = Dims::new(alloc);
    dims.push(n)?;
    let values = Domain::stretch(alloc, 0, i64::from(most));
    let name = letter(alloc, name)?;
    let mut inst = Instance::empty(alloc)?;
    inst.declare(name, dims, Kind::Discrete, values)?;
    Ok(inst)
}

// The variables of all rows.
fn all_rows(alloc: Global, n: u32) -> Result<Terms, AllocError>
    ensures { IfOk result (λ terms. terms ≡ map at_row (range_with_len 0 n)) }
{
    let mut terms = Terms::new(alloc);
    for i in 0..n {
        terms.push(at_row(i))?;
    }
    Ok(terms)
}

// That one column is at most the other and a number, or the other way round.
fn less_or_more(alloc: Global, x: Term, y: Term, k: i64, l: i64) -> Result<Con, AllocError>
    ensures { IfOk result (λ con. con ≡ less_or_more x y k l) }
{
    let last = Cons::More(
        Boxed::new(alloc, Con::Ineq(y, x, l))?,
        Boxed::new(alloc, Cons::End)?,
    );
    let first = Boxed::new(alloc, Con::Ineq(x, y, k))?;
    Ok(Con::WatchedOr(Cons::More(first, Boxed::new(alloc, last)?)))
}

/// The queens of a board with `n` rows.
pub(crate) fn queens(alloc: Global, n: u32) -> Result<Instance, AllocError>
    requires least { 1 ≤ n }
    requires few { n ≤ 64 }
    ensures { IfOk result (λ inst. inst ≡ queens n) }
{
    let mut inst = declared(alloc, 'q', n, n - 1)?;
    inst.add(Con::Alldiff(all_rows(alloc, n)?))?;
    for i in 0..n {
        keep_row_apart(alloc, &mut inst, n, i)?;
    }
    Ok(inst)
}

// Keeps the queen of row `i` off the diagonals of those after it.
fn keep_row_apart(alloc: Global, inst: &mut Instance, n: u32, i: u32) -> Result<(), AllocError>
    requires few { n ≤ 64 }
    requires row { i < n }
    requires board { IsBoard n inst.old }
    requires room { length inst.old.cons + 128 ≤ CONSTRAINTS }
    ensures board { OnOk result (IsBoard n inst.new) }
    ensures cons { OnOk result (inst.new.cons ≡ inst.old.cons ++ pairs_of_row n i) }
{
    for d in 1..n - i {
        keep_apart(alloc, inst, n, i, d)?;
    }
    Ok(())
}

// Keeps the queens of two rows off each other's diagonals.
fn keep_apart(alloc: Global, inst: &mut Instance, n: u32, i: u32, d: u32) -> Result<(), AllocError>
    requires few { n ≤ 64 }
    requires least { 1 ≤ d }
    requires row { i + d < n }
    requires board { IsBoard n inst.old }
    requires room { length inst.old.cons + 2 ≤ CONSTRAINTS }
    ensures board { OnOk result (IsBoard n inst.new) }
    ensures cons { OnOk result (inst.new.cons ≡ inst.old.cons ++ off_diagonals i d) }
{
    let j = i + d;
    let d = i64::from(d);
    add_less_or_more(alloc, inst, n, i, j, d - 1, -d - 1)?;
    add_less_or_more(alloc, inst, n, i, j, -d - 1, d - 1)
}

// Adds such a constraint on the columns of two rows.
fn add_less_or_more(
    alloc: Global,
    inst: &mut Instance,
    n: u32,
    i: u32,
    j: u32,
    k: i64,
    l: i64,
) -> Result<(), AllocError>
    requires few { n ≤ 64 }
    requires first { i < n }
    requires second { j < n }
    requires one { neg_ℤ (pos 65) ≤ℤ k }
    requires one_most { k ≤ℤ pos 64 }
    requires other { neg_ℤ (pos 65) ≤ℤ l }
    requires other_most { l ≤ℤ pos 64 }
    requires board { IsBoard n inst.old }
    requires room { length inst.old.cons < CONSTRAINTS }
    ensures board { OnOk result (IsBoard n inst.new) }
    ensures cons { OnOk result (inst.new.cons ≡ inst.old.cons ++ less_or_more (at_row i) (at_row j) k l ∷ []) }
{
    let con = less_or_more(alloc, at_row(i), at_row(j), k, l)?;
    inst.add(con)
}
