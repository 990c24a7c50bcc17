//! The lines of the search section.
ghost use Rattle.std.specs.Prelude.{◌≡◌, OnOk};
ghost use Rattle.std.specs.List.{list_any};
ghost use Rattle.mn_printer.specs.Pages.{onto};
ghost use Rattle.mn_canonical.specs.Search.{direction_text, directions_text, goal_text, goal_word, order_text, print_text, search_text, variables_text};

use crate::lists::{Printed, bracketed};
use crate::names::variable;
use crate::page::Page;
use mn_model::{Goal, Instance, Order, Print, VarId};
use std::alloc::AllocError;

impl Printed for bool {
    ghost text = { λ _ d. direction_text d };

    fn print_on(&self, page: &mut Page, _inst: &Instance) -> Result<(), AllocError> {
        page.put(if *self { b"d" } else { b"a" })
    }
}

/// Writes the lines of the search section.
#[tactic(auto, using(crate::proofs::Joining::onto_joined))]
pub(crate) fn search(page: &mut Page, inst: &Instance) -> Result<(), AllocError>
    ensures { OnOk result (page.new ≡ onto page.old (search_text inst.now)) }
{
    order(page, inst, inst.order())?;
    objective(page, inst, inst.goal())?;
    rows(page, inst, inst.print())
}

#[tactic(auto, using(crate::proofs::Joining::onto_joined))]
fn order(page: &mut Page, inst: &Instance, order: &Order) -> Result<(), AllocError>
    ensures { OnOk result (page.new ≡ onto page.old (order_text inst.now order.now)) }
{
    variables(page, inst, order.vars.as_slice())?;
    directions(page, inst, order.down.as_slice())
}

#[tactic(auto, using(crate::proofs::Joining::onto_joined))]
fn variables(page: &mut Page, inst: &Instance, vars: &[VarId]) -> Result<(), AllocError>
    ensures { OnOk result (page.new ≡ onto page.old (variables_text inst.now vars.now)) }
{
    if vars.is_empty() {
        return Ok(());
    }
    page.put(b"VARORDER ")?;
    bracketed(page, inst, vars)?;
    page.put(b"\n")
}

#[tactic(auto, using(crate::proofs::Joining::onto_joined))]
fn directions(page: &mut Page, inst: &Instance, down: &[bool]) -> Result<(), AllocError>
    ensures { OnOk result (page.new ≡ onto page.old (directions_text down.now)) }
{
    if !any(down) {
        return Ok(());
    }
    page.put(b"VALORDER ")?;
    bracketed(page, inst, down)?;
    page.put(b"\n")
}

fn any(flags: &[bool]) -> bool
    ensures { result ≡ list_any (λ d. d) flags.now }
{
    flags.iter().any(|d| *d)
}

fn objective(page: &mut Page, inst: &Instance, goal: Option<Goal>) -> Result<(), AllocError>
    ensures { OnOk result (page.new ≡ onto page.old (goal_text inst.now goal)) }
{
    match goal {
        Some(goal) => goal_line(page, inst, goal),
        None => Ok(()),
    }
}

#[tactic(auto, using(crate::proofs::Joining::onto_joined))]
fn goal_line(page: &mut Page, inst: &Instance, goal: Goal) -> Result<(), AllocError>
    ensures { OnOk result (page.new ≡ onto page.old (goal_text inst.now (Some goal))) }
{
    page.put(objective_word(goal.maximise).as_bytes())?;
    variable(page, inst, goal.var)?;
    page.put(b"\n")
}

fn objective_word(maximise: bool) -> &'static str
    ensures { result.now ≡ goal_word maximise }
{
    if maximise {
        "MAXIMISING "
    } else {
        "MINIMISING "
    }
}

#[tactic(auto, using(crate::proofs::Joining::onto_joined))]
fn rows(page: &mut Page, inst: &Instance, print: &Print) -> Result<(), AllocError>
    ensures { OnOk result (page.new ≡ onto page.old (print_text inst.now print.now)) }
{
    match print {
        Print::All => page.put(b"PRINT ALL\n"),
        Print::Nothing => page.put(b"PRINT NONE\n"),
        Print::Rows(rows) => {
            page.put(b"PRINT ")?;
            bracketed(page, inst, rows.as_slice())?;
            page.put(b"\n")
        }
    }
}
