//! The arguments of a form, and the form with its word before them.
ghost use Rattle.std.specs.Prelude.{◌≡◌, map, OnOk};
ghost use Rattle.mn_printer.specs.Arguments.{argument_text};
ghost use Rattle.mn_canonical.specs.Constraints.{form_text};
ghost use Rattle.mn_printer.specs.Pages.{onto};

use crate::lists::{Printed, bracketed, with_commas};
use crate::page::Page;
use crate::tables::table;
use mn_model::{Instance, Ints, Tab, Term, Terms};
use std::alloc::AllocError;

/// An argument of a form.
#[derive(Clone, Copy)]
pub enum Argument<'a> {
    Single(Term),
    Vector(&'a Terms),
    Number(i64),
    Numbers(&'a Ints),
    Range(i64, i64),
    Table(&'a Tab),
}

impl<'a> Printed for Argument<'a> {
    ghost text = { argument_text };

    fn print_on(&self, page: &mut Page, inst: &Instance) -> Result<(), AllocError> {
        match self {
            Argument::Single(x) => x.print_on(page, inst),
            Argument::Vector(v) => bracketed(page, inst, v.as_slice()),
            Argument::Number(k) => page.put_number(*k),
            Argument::Numbers(ks) => bracketed(page, inst, ks.as_slice()),
            Argument::Range(k, k2) => bracketed(page, inst, &[*k, *k2]),
            Argument::Table(tab) => table(page, inst, tab),
        }
    }
}

/// Writes a form: its word, and its arguments.
#[tactic(auto, using(crate::proofs::Joining::onto_joined), unfolding(mn_canonical::specs::Constraints::form_text))]
pub(crate) fn form(
    page: &mut Page,
    inst: &Instance,
    word: &str,
    arguments: &[Argument],
) -> Result<(), AllocError>
    ensures { OnOk result (page.new ≡ onto page.old (form_text word.now (map (argument_text inst.now) arguments.now))) }
{
    page.put(word.as_bytes())?;
    page.put(b"(")?;
    with_commas(page, inst, arguments)?;
    page.put(b")")
}
