//! The block of a solution.
ghost use Rattle.std.specs.Prelude.{◌≡◌, ◌++◌, IfOk, OnOk, codes, decimal, map};
ghost use Rattle.std.specs.List.{AllByRecursion, flat_map};
ghost use Rattle.mn_model.specs.Domain.{IsValue};
ghost use Rattle.mn_meaning.specs.Meaning.{at, value_of};
ghost use Rattle.mn_report.specs.Blocks.{block_text, objective_text, row_text, rows_of, value_text};

use itoa::Buffer;
use mn_meaning::{Assigned, value_at};
use mn_model::{Goal, Instance, Print, Term, Terms};
use std::alloc::{AllocError, Global};

/// The block of a solution, which has the value of each variable at its number. Solutions are numbered from 1.
pub fn block(alloc: Global, inst: &Instance, s: &[i64], number: u64) -> Result<Vec<u8>, AllocError>
    requires { AllByRecursion IsValue s.now }
    ensures { IfOk result (λ text. text.items ≡ block_text inst.now s.now number) }
{
    let mut text = Vec::new(alloc);
    write_block(&mut text, inst, s, number)?;
    Ok(text)
}

/// Puts the block of a solution in place of what the buffer holds, so that one buffer serves all blocks. Where memory is
/// wanting the buffer holds a part of the block, and is of no more use.
pub fn write_block(
    buffer: &mut Vec<u8>,
    inst: &Instance,
    s: &[i64],
    number: u64,
) -> Result<(), AllocError>
    requires { AllByRecursion IsValue s.now }
    ensures { OnOk result (buffer.new.items ≡ block_text inst.now s.now number) }
{
    buffer.clear();
    rows(buffer, inst.print(), s)?;
    objective(buffer, inst.goal(), s)?;
    number_of_solution(buffer, number)
}

/// Writes the line of a solution's number.
fn number_of_solution(buffer: &mut Vec<u8>, number: u64) -> Result<(), AllocError>
    ensures { OnOk result (buffer.new.items ≡ buffer.old.items ++ codes "Solution Number: " ++ decimal number ++ codes "\n") }
{
    let mut digits = Buffer::new();
    buffer.extend_from_slice(b"Solution Number: ")?;
    buffer.extend_from_slice(digits.format(number).as_bytes())?;
    buffer.extend_from_slice(b"\n")?;
    Ok(())
}

/// Writes the rows that are asked for.
fn rows(buffer: &mut Vec<u8>, print: &Print, s: &[i64]) -> Result<(), AllocError>
    requires { AllByRecursion IsValue s.now }
    ensures { OnOk result (buffer.new.items ≡ buffer.old.items ++ flat_map row_text (rows_of print.now s.now)) }
{
    match print {
        Print::All => row_of_all(buffer, s),
        Print::Nothing => Ok(()),
        Print::Rows(rows) => each_row(buffer, rows.as_slice(), s),
    }
}

/// Writes one row of all values.
fn row_of_all(buffer: &mut Vec<u8>, s: &[i64]) -> Result<(), AllocError>
    ensures { OnOk result (buffer.new.items ≡ buffer.old.items ++ row_text s.now) }
{
    buffer.extend_from_slice(b"Sol:")?;
    values(buffer, s)?;
    buffer.extend_from_slice(b"\n")?;
    Ok(())
}

/// Writes a row for each list of terms.
fn each_row(buffer: &mut Vec<u8>, rows: &[Terms], s: &[i64]) -> Result<(), AllocError>
    requires { AllByRecursion IsValue s.now }
    ensures { OnOk result (buffer.new.items ≡ buffer.old.items ++ flat_map row_text (map (map (value_of (at s.now))) rows.now)) }
{
    for row in rows {
        row_of_terms(buffer, row.as_slice(), s)?;
    }
    Ok(())
}

/// Writes one row of the values of terms.
fn row_of_terms(buffer: &mut Vec<u8>, terms: &[Term], s: &[i64]) -> Result<(), AllocError>
    requires { AllByRecursion IsValue s.now }
    ensures { OnOk result (buffer.new.items ≡ buffer.old.items ++ row_text (map (value_of (at s.now)) terms.now)) }
{
    buffer.extend_from_slice(b"Sol:")?;
    values_of_terms(buffer, terms, s)?;
    buffer.extend_from_slice(b"\n")?;
    Ok(())
}

/// Writes a blank and a value.
fn value(buffer: &mut Vec<u8>, a: i64) -> Result<(), AllocError>
    ensures { OnOk result (buffer.new.items ≡ buffer.old.items ++ value_text a) }
{
    let mut digits = Buffer::new();
    buffer.push(b' ')?;
    buffer.extend_from_slice(digits.format(a).as_bytes())?;
    Ok(())
}

fn values(buffer: &mut Vec<u8>, s: &[i64]) -> Result<(), AllocError>
    ensures { OnOk result (buffer.new.items ≡ buffer.old.items ++ flat_map value_text s.now) }
{
    for a in s {
        value(buffer, *a)?;
    }
    Ok(())
}

fn values_of_terms(buffer: &mut Vec<u8>, terms: &[Term], s: &[i64]) -> Result<(), AllocError>
    requires { AllByRecursion IsValue s.now }
    ensures { OnOk result (buffer.new.items ≡ buffer.old.items ++ flat_map value_text (map (value_of (at s.now)) terms.now)) }
{
    let told = Assigned::new(s);
    for t in terms {
        value(buffer, value_at(*t, &told))?;
    }
    Ok(())
}

/// Writes the line of the objective, where there is one.
fn objective(buffer: &mut Vec<u8>, goal: Option<Goal>, s: &[i64]) -> Result<(), AllocError>
    requires { AllByRecursion IsValue s.now }
    ensures { OnOk result (buffer.new.items ≡ buffer.old.items ++ objective_text goal s.now) }
{
    match goal {
        Some(goal) => best_value(buffer, value_at(Term::Var(goal.var), &Assigned::new(s))),
        None => Ok(()),
    }
}

fn best_value(buffer: &mut Vec<u8>, best: i64) -> Result<(), AllocError>
    ensures { OnOk result (buffer.new.items ≡ buffer.old.items ++ codes "Objective:" ++ value_text best ++ codes "\n") }
{
    buffer.extend_from_slice(b"Objective:")?;
    value(buffer, best)?;
    buffer.extend_from_slice(b"\n")?;
    Ok(())
}
