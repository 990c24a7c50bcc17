//! The whole text, section after section.
ghost use Rattle.std.specs.Prelude.{◌≡◌, ◌<◌, ◌≤◌, ◌++◌, codes, length, IfErr, IfOk, IsErr, OnOk};
ghost use Rattle.std.specs.List.{flat_map};
ghost use Rattle.mn_model.specs.declared.limits.TheConstants.{TEXT_BYTES};
ghost use Rattle.mn_language.specs.Texts.{Reads};
ghost use Rattle.mn_canonical.specs.Canonical.{canonical_text, constraint_line, constraints_section, search_section, tuples_section, variables_section};
ghost use Rattle.mn_printer.specs.Faults.{IsFaultOf};
ghost use Rattle.mn_canonical.specs.Declarations.{alias_text, declaration_text};
ghost use Rattle.mn_printer.specs.Pages.{blank, onto};
ghost use Rattle.mn_canonical.specs.Tables.{tuple_list_text};
ghost use Rattle.mn_printer.specs.declared.sections.PrintFault.TheVariants.{NoMemory};

use crate::constraints::constraint;
use crate::declarations::{alias, declaration};
use crate::page::Page;
use crate::search::search;
use crate::tables::tuple_list;
use mn_canonical::canonical_texts_are_read;
use mn_model::Instance;
use std::alloc::{AllocError, Global};
use thiserror::Error;

/// Why an instance has no printed text.
#[derive(Clone, Copy, Debug, PartialEq, Eq, Error)]
pub enum PrintFault {
    /// The text is longer than a text may be. The number is its length, or the greatest number if that is less.
    #[error("the text is too long: {0} bytes")]
    TooLong(u64),
    #[error("no memory")]
    NoMemory,
}

impl From<AllocError> for PrintFault {
    ghost from_gives = { λ _ fault. fault ≡ NoMemory };

    fn from(_: AllocError) -> Self {
        PrintFault::NoMemory
    }
}

/// The canonical text of an instance. A text past the limit is counted to its end, but not kept.
pub fn print(alloc: Global, inst: &Instance) -> Result<Vec<u8>, PrintFault>
    ensures text { IfOk result (λ text. text.items ≡ canonical_text inst.now) }

    // So what is printed is a text of the language, and is read as the instance again.
    ensures reads { IfOk result (λ text. Reads text.items inst.now) }

    ensures fits { IfOk result (λ text. length text.items ≤ TEXT_BYTES) }
    ensures too_long { IfErr result (IsFaultOf (canonical_text inst.now)) }
    ensures long { TEXT_BYTES < length (canonical_text inst.now) → IsErr result }
{
    inst.lawful();
    canonical_texts_are_read();
    let mut page = Page::new(alloc);
    sections(&mut page, inst)?;
    page.finished()
}

#[tactic(auto, using(crate::proofs::Joining::onto_joined))]
fn sections(page: &mut Page, inst: &Instance) -> Result<(), AllocError>
    ensures { OnOk result (page.new ≡ onto page.old (canonical_text inst.now)) }
{
    page.put(b"MINION 3\n")?;
    variables(page, inst)?;
    tuple_lists(page, inst)?;
    how_to_search(page, inst)?;
    constraints(page, inst)?;
    page.put(b"**EOF**\n")
}

#[tactic(auto, using(crate::proofs::Joining::onto_joined))]
fn variables(page: &mut Page, inst: &Instance) -> Result<(), AllocError>
    ensures { OnOk result (page.new ≡ onto page.old (variables_section inst.now)) }
{
    page.put(b"**VARIABLES**\n")?;
    declarations(page, inst)?;
    aliases(page, inst)
}

fn declarations(page: &mut Page, inst: &Instance) -> Result<(), AllocError>
    ensures { OnOk result (page.new ≡ onto page.old (flat_map declaration_text inst.now.decls)) }
{
    inst.lawful();
    for decl in inst.decls() {
        declaration(page, inst, decl)?;
    }
    Ok(())
}

fn aliases(page: &mut Page, inst: &Instance) -> Result<(), AllocError>
    ensures { OnOk result (page.new ≡ onto page.old (flat_map (alias_text inst.now) inst.now.aliases)) }
{
    inst.lawful();
    for a in inst.aliases() {
        alias(page, inst, a)?;
    }
    Ok(())
}

#[tactic(auto, using(crate::proofs::Joining::onto_joined))]
fn tuple_lists(page: &mut Page, inst: &Instance) -> Result<(), AllocError>
    ensures { OnOk result (page.new ≡ onto page.old (tuples_section inst.now)) }
{
    page.put(b"**TUPLELIST**\n")?;
    each_tuple_list(page, inst)
}

fn each_tuple_list(page: &mut Page, inst: &Instance) -> Result<(), AllocError>
    ensures { OnOk result (page.new ≡ onto page.old (flat_map tuple_list_text inst.now.tuples)) }
{
    inst.lawful();
    for list in inst.tuples() {
        tuple_list(page, inst, list)?;
    }
    Ok(())
}

#[tactic(auto, using(crate::proofs::Joining::onto_joined))]
fn how_to_search(page: &mut Page, inst: &Instance) -> Result<(), AllocError>
    ensures { OnOk result (page.new ≡ onto page.old (search_section inst.now)) }
{
    page.put(b"**SEARCH**\n")?;
    search(page, inst)
}

#[tactic(auto, using(crate::proofs::Joining::onto_joined))]
fn constraints(page: &mut Page, inst: &Instance) -> Result<(), AllocError>
    ensures { OnOk result (page.new ≡ onto page.old (constraints_section inst.now)) }
{
    page.put(b"**CONSTRAINTS**\n")?;
    each_constraint(page, inst)
}

fn each_constraint(page: &mut Page, inst: &Instance) -> Result<(), AllocError>
    ensures { OnOk result (page.new ≡ onto page.old (flat_map (constraint_line inst.now) inst.now.cons)) }
{
    for con in inst.cons() {
        constraint(page, inst, con)?;
        page.put(b"\n")?;
    }
    Ok(())
}
