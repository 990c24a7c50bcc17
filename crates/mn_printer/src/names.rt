//! Names, variables by their declaration and their indices, and terms.
ghost use Rattle.std.specs.Prelude.{◌≡◌, ℕ, suc, ◌+◌, ◌-◌, ◌<◌, ◌≤◌, ◌++◌, [], codes, decimal, length, map, slice_get, Some, None, OnOk, IfSome};
ghost use Rattle.std.specs.List.{AllByRecursion, flat_map};
ghost use Rattle.mn_model.specs.Lawful.{AreNumberedFrom, IsLawfulDecl};
ghost use Rattle.mn_model.specs.Name.{IsName};
ghost use Rattle.mn_model.specs.Problem.{size_of_dims};
ghost use Rattle.mn_model.specs.Variable.{number_of};
ghost use Rattle.mn_model.specs.declared.declaration.Decl.{Decl};
ghost use Rattle.mn_sections.specs.Matrices.{indices_of};
ghost use Rattle.mn_canonical.specs.Names.{numbered_text, place_text, subscript_text, term_text, variable_text, vector_text};
ghost use Rattle.mn_printer.specs.Pages.{onto};

use crate::lists::{Printed, bracketed};
use crate::page::Page;
use mn_model::{Decl, Instance, Term, Terms, VARIABLES, VarId, size_of};
use std::alloc::AllocError;

impl Printed for VarId {
    ghost text = { variable_text };

    fn print_on(&self, page: &mut Page, inst: &Instance) -> Result<(), AllocError> {
        variable(page, inst, *self)
    }
}

impl Printed for Term {
    ghost text = { term_text };

    #[tactic(auto, using(crate::proofs::Joining::onto_joined))]
    fn print_on(&self, page: &mut Page, inst: &Instance) -> Result<(), AllocError> {
        match self {
            Term::Var(v) => variable(page, inst, *v),
            Term::Const(k) => page.put_number(*k),
            Term::Not(v) => {
                page.put(b"!")?;
                variable(page, inst, *v)
            }
        }
    }
}

impl Printed for Terms {
    ghost text = { vector_text };

    fn print_on(&self, page: &mut Page, inst: &Instance) -> Result<(), AllocError> {
        bracketed(page, inst, self.as_slice())
    }
}

/// Writes a variable by its declaration. What isn't declared has no text: no instance speaks of it.
pub(crate) fn variable(page: &mut Page, inst: &Instance, v: VarId) -> Result<(), AllocError>
    ensures { OnOk result (page.new ≡ onto page.old (variable_text inst.now v)) }
{
    match owner(inst, v.number()) {
        Some(decl) => at_place(page, decl, v.number() - decl.first.number()),
        None => Ok(()),
    }
}

// The declaration of a variable.
fn owner(inst: &Instance, n: u32) -> Option<&Decl>
    ensures begins { IfSome result (λ d. number_of d.now.first ≤ n) }
    ensures text { IfSome result (λ d. numbered_text inst.now.decls n ≡ place_text d.now (n - number_of d.now.first)) }
    ensures lawful { IfSome result (λ d. IsLawfulDecl d.now) }
    ensures few { IfSome result (λ d. size_of_dims d.now.dims ≤ VARIABLES) }
    ensures missing { result ≡ None → numbered_text inst.now.decls n ≡ [] }
{
    inst.lawful();
    let decls = inst.decls();
    let count = begun(decls, n);
    if count == 0 {
        return None;
    }
    let decl = &decls[count - 1];
    if ((n - decl.first.number()) as usize) < size_of(decl.dims.as_slice()) {
        Some(decl)
    } else {
        None
    }
}

// How many declarations begin with a variable of this number or with one before it.
fn begun(decls: &[Decl], n: u32) -> usize
    ensures within { result ≤ length decls.now }
    ensures last { (k : ℕ) (d : Decl) → suc k ≡ result → slice_get decls.now k ≡ Some d → number_of d.first ≤ n }
    ensures next { (d : Decl) → slice_get decls.now result ≡ Some d → n < number_of d.first }
{
    let mut low = 0;
    let mut high = decls.len();
    while low < high {
        let middle = low + (high - low) / 2;
        if decls[middle].first.number() <= n {
            low = middle + 1;
        } else {
            high = middle;
        }
    }
    low
}

#[tactic(auto, using(crate::proofs::Joining::onto_joined))]
fn at_place(page: &mut Page, decl: &Decl, place: u32) -> Result<(), AllocError>
    requires lawful { IsLawfulDecl decl.now }
    requires few { size_of_dims decl.now.dims ≤ VARIABLES }
    ensures { OnOk result (page.new ≡ onto page.old (place_text decl.now place)) }
{
    name(page, decl.name.as_slice())?;
    indices(page, decl.dims.as_slice(), place)
}

/// Writes a name.
pub(crate) fn name(page: &mut Page, name: &[char]) -> Result<(), AllocError>
    requires { IsName name.now }
    ensures { OnOk result (page.new ≡ onto page.old name.now) }
{
    for c in name {
        page.put(&[*c as u8])?;
    }
    Ok(())
}

/// Writes dimensions in brackets, if there are any.
pub(crate) fn subscript(page: &mut Page, inst: &Instance, dims: &[u32]) -> Result<(), AllocError>
    ensures { OnOk result (page.new ≡ onto page.old (subscript_text dims.now)) }
{
    match dims {
        [] => Ok(()),
        _ => bracketed(page, inst, dims),
    }
}

// Writes the indices of a place in a matrix.
#[tactic(auto, using(crate::proofs::Joining::onto_joined), unfolding(mn_canonical::specs::Lists::bracketed))]
fn indices(page: &mut Page, dims: &[u32], place: u32) -> Result<(), AllocError>
    requires shaped { AllByRecursion (λ dim. 1 ≤ dim) dims.now }
    requires few { size_of_dims dims.now ≤ VARIABLES }
    ensures { OnOk result (page.new ≡ onto page.old (subscript_text (indices_of dims.now place))) }
{
    match dims {
        [] => Ok(()),
        [_, others @ ..] => {
            let size = size_of(others);
            page.put(b"[")?;
            page.put_count((place as usize / size) as u64)?;
            further_indices(page, others, size, place as usize % size)?;
            page.put(b"]")
        }
    }
}

// Writes the indices with a comma before each, for a matrix of this size.
fn further_indices(
    page: &mut Page,
    dims: &[u32],
    mut size: usize,
    mut place: usize,
) -> Result<(), AllocError>
    requires shaped { AllByRecursion (λ dim. 1 ≤ dim) dims.now }
    requires sized { size ≡ size_of_dims dims.now }
    ensures { OnOk result (page.new ≡ onto page.old (flat_map (λ y. codes "," ++ y) (map decimal (indices_of dims.now place)))) }
{
    for dim in dims {
        size /= *dim as usize;
        page.put(b",")?;
        page.put_count((place / size) as u64)?;
        place %= size;
    }
    Ok(())
}
