//! The lines that declare variables and aliases.
ghost use Rattle.std.specs.Prelude.{◌≡◌, ◌≤◌, ◌++◌, codes, drop, length, map, replicate, OnOk};
ghost use Rattle.mn_canonical.specs.Lists.{repeated};
ghost use Rattle.std.specs.Fmt.{signed_decimal};
ghost use Rattle.std.specs.List.{AllByRecursion, flat_map};
ghost use Rattle.mn_model.specs.Lawful.{IsLawfulAlias, IsLawfulDecl};
ghost use Rattle.mn_model.specs.Problem.{domains_of, size_of_dims};
ghost use Rattle.mn_canonical.specs.Declarations.{alias_text, declaration_text, domain_text, ends_text, kind_text, nested_text, values_text};
ghost use Rattle.mn_printer.specs.Pages.{onto};

use crate::lists::{row_and_rest, with_commas};
use crate::names::{name, subscript};
use crate::page::Page;
use mn_model::{Alias, Decl, Domain, Instance, Kind, VarId};
use std::alloc::AllocError;

/// Writes the line of a declaration.
#[tactic(auto, using(crate::proofs::Joining::onto_joined))]
pub(crate) fn declaration(page: &mut Page, inst: &Instance, decl: &Decl) -> Result<(), AllocError>
    requires { IsLawfulDecl decl.now }
    ensures { OnOk result (page.new ≡ onto page.old (declaration_text decl.now)) }
{
    page.put(kind_word(decl.kind).as_bytes())?;
    page.put(b" ")?;
    name(page, decl.name.as_slice())?;
    subscript(page, inst, decl.dims.as_slice())?;
    domain(page, decl.kind, &decl.domain)?;
    page.put(b"\n")
}

fn kind_word(kind: Kind) -> &'static str
    ensures { result.now ≡ kind_text kind }
{
    match kind {
        Kind::Binary => "BOOL",
        Kind::Bounded => "BOUND",
        Kind::Sparse => "SPARSEBOUND",
        Kind::Discrete => "DISCRETE",
    }
}

// Writes the domain of a kind. Who writes BOOL writes none.
fn domain(page: &mut Page, kind: Kind, domain: &Domain) -> Result<(), AllocError>
    ensures { OnOk result (page.new ≡ onto page.old (domain_text kind domain.now)) }
{
    match kind {
        Kind::Binary => Ok(()),
        Kind::Bounded => ends(page, domain),
        Kind::Sparse => values(page, domain),
        Kind::Discrete => ends(page, domain),
    }
}

fn ends(page: &mut Page, domain: &Domain) -> Result<(), AllocError>
    ensures { OnOk result (page.new ≡ onto page.old (ends_text domain.now)) }
{
    page.put(b" {")?;
    page.put_number(domain.lo())?;
    page.put(b"..")?;
    page.put_number(domain.hi())?;
    page.put(b"}")
}

fn values(page: &mut Page, domain: &Domain) -> Result<(), AllocError>
    ensures { OnOk result (page.new ≡ onto page.old (values_text domain.now)) }
{
    domain.lawful();
    page.put(b" {")?;
    page.put_number(domain.lo())?;
    further_values(page, domain)?;
    page.put(b"}")
}

// Writes all values but the first, with a comma before each.
fn further_values(page: &mut Page, domain: &Domain) -> Result<(), AllocError>
    ensures { OnOk result (page.new ≡ onto page.old (flat_map (λ y. codes "," ++ y) (map signed_decimal (drop 1 domain.now)))) }
{
    let mut i = 1;
    while i < domain.size() {
        page.put(b",")?;
        page.put_number(domain.nth(i))?;
        i += 1;
    }
    Ok(())
}

/// Writes the line of an alias.
#[tactic(auto, using(crate::proofs::Joining::onto_joined))]
pub(crate) fn alias(page: &mut Page, inst: &Instance, alias: &Alias) -> Result<(), AllocError>
    requires { IsLawfulAlias (domains_of inst.now.decls) alias.now }
    ensures { OnOk result (page.new ≡ onto page.old (alias_text inst.now alias.now)) }
{
    let dims = alias.dims.as_slice();
    let vars = alias.vars.as_slice();
    page.put(b"ALIAS ")?;
    name(page, alias.name.as_slice())?;
    subscript(page, inst, dims)?;
    page.put(b" = ")?;
    nested(page, inst, dims, vars.len(), vars)?;
    page.put(b"\n")
}

// Writes variables as a matrix of these dimensions, which has so many places. Dimensions of 1 are written at once, so that
// calls stand inside one another only as deep as there are others.
#[cycle(nesting)]
fn nested(
    page: &mut Page,
    inst: &Instance,
    dims: &[u32],
    size: usize,
    vars: &[VarId],
) -> Result<(), AllocError>
    requires shaped { AllByRecursion (λ dim. 1 ≤ dim) dims.now }
    requires sized { size ≡ size_of_dims dims.now }
    requires short { length vars.now ≤ size }
    ensures { OnOk result (page.new ≡ onto page.old (nested_text inst.now dims.now vars.now)) }
{
    let ones = leading_ones(dims);
    let (_, others) = dims.split_at(ones);
    repeat(page, b"[", ones)?;
    rows(page, inst, others, size, vars)?;
    repeat(page, b"]", ones)
}

// How many dimensions of 1 stand before all others.
fn leading_ones(dims: &[u32]) -> usize
    ensures within { result ≤ length dims.now }
    ensures ones { dims.now ≡ replicate result 1 ++ drop result dims.now }
{
    let mut ones = 0;
    while ones < dims.len() && dims[ones] == 1 {
        ones += 1;
    }
    ones
}

fn repeat(page: &mut Page, bytes: &[u8], count: usize) -> Result<(), AllocError>
    ensures { OnOk result (page.new ≡ onto page.old (repeated count bytes.now)) }
{
    let mut left = count;
    while left > 0 {
        page.put(bytes)?;
        left -= 1;
    }
    Ok(())
}

// Writes the rows of a matrix.
#[cycle(nesting)]
fn rows(
    page: &mut Page,
    inst: &Instance,
    dims: &[u32],
    size: usize,
    vars: &[VarId],
) -> Result<(), AllocError>
    requires shaped { AllByRecursion (λ dim. 1 ≤ dim) dims.now }
    requires sized { size ≡ size_of_dims dims.now }
    ensures { OnOk result (page.new ≡ onto page.old (nested_text inst.now dims.now vars.now)) }
{
    match dims {
        [] => with_commas(page, inst, vars),
        [dim, others @ ..] => {
            let inner = size / *dim as usize;
            let (first, behind) = row_and_rest(vars, inner);
            page.put(b"[")?;
            nested(page, inst, others, inner, first)?;
            let mut left = *dim - 1;
            let mut rest = behind;
            while left > 0 {
                let (row, behind) = row_and_rest(rest, inner);
                page.put(b",")?;
                nested(page, inst, others, inner, row)?;
                rest = behind;
                left -= 1;
            }
            page.put(b"]")
        }
    }
}
