//! The section of constraints, up to the next head.
ghost use Rattle.std.specs.Prelude.{◌≡◌, leb, length, is_some, IfErr, OnOk};
ghost use Rattle.mn_cursor.specs.Heads.{head_of};
ghost use Rattle.mn_cursor.specs.Looks.{first_as};
ghost use Rattle.mn_cursor.specs.Progress.{rest, GoesOn};
ghost use Rattle.mn_cursor.specs.Sections.{IsRead, ReadsSection};
ghost use Rattle.mn_grammar.specs.Gives.{Gives, Stops};
ghost use Rattle.mn_model.specs.declared.limits.TheConstants.{CONSTRAINTS};
ghost use Rattle.mn_language.specs.Constructing.{constraints_at};
ghost use Rattle.mn_constraints.specs.Nesting.{next_at};

use crate::nested::constraint;
use mn_cursor::{Cursor, Seen, head_of};
use mn_grammar::Stop;
use mn_model::{CONSTRAINTS, Instance, NESTING, Refusal};
use mn_references::Scan;

/// Whether a head stands at the place.
fn is_head(c: &Cursor) -> bool
    ensures { result ≡ is_some (first_as head_of (rest c.now)) }
{
    match c.look() {
        Some(Seen::Head(bytes)) => head_of(bytes).is_some(),
        _ => false,
    }
}

/// Whether the limit leaves no more constraints.
fn is_full(inst: &Instance) -> bool
    ensures { result ≡ leb CONSTRAINTS (length inst.now.cons) }
{
    CONSTRAINTS <= inst.cons().len() as u64
}

/// Reads a constraint and adds it.
fn next(c: &mut Cursor) -> Result<(), Stop>
    ensures goes_on { GoesOn c.old c.new }
    ensures gives { Gives (λ _. (c.new.problem, rest c.new)) result (next_at c.old.problem (rest c.old)) }
{
    c.lawful();
    c.inst().lawful();
    let mut used = c.inst().cells();
    let full = is_full(c.inst());
    let mut scan = Scan::new(c);
    let result = constraint(&mut scan, NESTING, full, &mut used);
    let left = scan.left();
    match result {
        Ok(con) => {
            c.go_to(left);
            c.add(con)?;
            Ok(())
        }
        Err(stop) => Err(stop),
    }
}

/// Reads constraints up to the next head.
fn section(c: &mut Cursor) -> Result<(), Stop>
    ensures goes_on { GoesOn c.old c.new }
    ensures ok { OnOk result (IsRead c.new (constraints_at c.old.problem (rest c.old))) }
    ensures err { IfErr result (λ e. Stops e (constraints_at c.old.problem (rest c.old))) }
{
    while !is_head(c) {
        next(c)?;
    }
    Ok(())
}

/// Reads the entries of a section of constraints, up to the next head.
pub fn constraints(c: &mut Cursor) -> Result<(), Refusal>
    ensures goes_on { GoesOn c.old c.new }
    ensures reads { ReadsSection c.old c.new result (constraints_at c.old.problem (rest c.old)) }
{
    match section(c) {
        Ok(()) => Ok(()),
        Err(stop) => Err(c.refusal(stop)),
    }
}
