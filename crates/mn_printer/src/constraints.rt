//! A constraint of any form, with those inside it.
ghost use Rattle.std.specs.Prelude.{◌≡◌, ◌++◌, ◌∷◌, [], codes, OnOk};
ghost use Rattle.std.specs.List.{flat_map};
ghost use Rattle.mn_canonical.specs.Constraints.{children_texts, constraint_text, form_text, gathered_text};
ghost use Rattle.mn_canonical.specs.Lists.{with_commas};
ghost use Rattle.mn_canonical.specs.Names.{term_text};
ghost use Rattle.mn_printer.specs.Pages.{onto};

use crate::arguments::{Argument, form};
use crate::lists::Printed;
use crate::page::Page;
use mn_model::{Con, Cons, Instance, Term};
use std::alloc::AllocError;

/// Writes a constraint. Calls stand inside one another as deep as forms do.
#[cycle(printing)]
pub(crate) fn constraint(page: &mut Page, inst: &Instance, con: &Con) -> Result<(), AllocError>
    ensures { OnOk result (page.new ≡ onto page.old (constraint_text inst.now con.now)) }
{
    match con {
        Con::Eq(x, y) => form(
            page,
            inst,
            "eq",
            &[Argument::Single(*x), Argument::Single(*y)],
        ),
        Con::Diseq(x, y) => form(
            page,
            inst,
            "diseq",
            &[Argument::Single(*x), Argument::Single(*y)],
        ),
        Con::Ineq(x, y, k) => form(
            page,
            inst,
            "ineq",
            &[
                Argument::Single(*x),
                Argument::Single(*y),
                Argument::Number(*k),
            ],
        ),
        Con::Watchless(x, y) => form(
            page,
            inst,
            "watchless",
            &[Argument::Single(*x), Argument::Single(*y)],
        ),
        Con::Minuseq(x, y) => form(
            page,
            inst,
            "minuseq",
            &[Argument::Single(*x), Argument::Single(*y)],
        ),
        Con::Abs(x, y) => form(
            page,
            inst,
            "abs",
            &[Argument::Single(*x), Argument::Single(*y)],
        ),
        Con::Difference(x, y, z) => form(
            page,
            inst,
            "difference",
            &[
                Argument::Single(*x),
                Argument::Single(*y),
                Argument::Single(*z),
            ],
        ),
        Con::Product(x, y, z) => form(
            page,
            inst,
            "product",
            &[
                Argument::Single(*x),
                Argument::Single(*y),
                Argument::Single(*z),
            ],
        ),
        Con::Div(x, y, z) => form(
            page,
            inst,
            "div",
            &[
                Argument::Single(*x),
                Argument::Single(*y),
                Argument::Single(*z),
            ],
        ),
        Con::Modulo(x, y, z) => form(
            page,
            inst,
            "modulo",
            &[
                Argument::Single(*x),
                Argument::Single(*y),
                Argument::Single(*z),
            ],
        ),
        Con::Max(v, x) => form(
            page,
            inst,
            "max",
            &[Argument::Vector(v), Argument::Single(*x)],
        ),
        Con::Min(v, x) => form(
            page,
            inst,
            "min",
            &[Argument::Vector(v), Argument::Single(*x)],
        ),
        Con::Sumleq(v, x) => form(
            page,
            inst,
            "sumleq",
            &[Argument::Vector(v), Argument::Single(*x)],
        ),
        Con::Sumgeq(v, x) => form(
            page,
            inst,
            "sumgeq",
            &[Argument::Vector(v), Argument::Single(*x)],
        ),
        Con::Weightedsumleq(ks, v, x) => form(
            page,
            inst,
            "weightedsumleq",
            &[
                Argument::Numbers(ks),
                Argument::Vector(v),
                Argument::Single(*x),
            ],
        ),
        Con::Weightedsumgeq(ks, v, x) => form(
            page,
            inst,
            "weightedsumgeq",
            &[
                Argument::Numbers(ks),
                Argument::Vector(v),
                Argument::Single(*x),
            ],
        ),
        Con::Watchsumleq(v, k) => form(
            page,
            inst,
            "watchsumleq",
            &[Argument::Vector(v), Argument::Number(*k)],
        ),
        Con::Watchsumgeq(v, k) => form(
            page,
            inst,
            "watchsumgeq",
            &[Argument::Vector(v), Argument::Number(*k)],
        ),
        Con::Litsumgeq(v, ks, k) => form(
            page,
            inst,
            "litsumgeq",
            &[
                Argument::Vector(v),
                Argument::Numbers(ks),
                Argument::Number(*k),
            ],
        ),
        Con::Element(v, x, y) => form(
            page,
            inst,
            "element",
            &[
                Argument::Vector(v),
                Argument::Single(*x),
                Argument::Single(*y),
            ],
        ),
        Con::Watchelement(v, x, y) => form(
            page,
            inst,
            "watchelement",
            &[
                Argument::Vector(v),
                Argument::Single(*x),
                Argument::Single(*y),
            ],
        ),
        Con::ElementOne(v, x, y) => form(
            page,
            inst,
            "element_one",
            &[
                Argument::Vector(v),
                Argument::Single(*x),
                Argument::Single(*y),
            ],
        ),
        Con::WatchelementOne(v, x, y) => form(
            page,
            inst,
            "watchelement_one",
            &[
                Argument::Vector(v),
                Argument::Single(*x),
                Argument::Single(*y),
            ],
        ),
        Con::Table(v, tab) => form(
            page,
            inst,
            "table",
            &[Argument::Vector(v), Argument::Table(tab)],
        ),
        Con::Negativetable(v, tab) => form(
            page,
            inst,
            "negativetable",
            &[Argument::Vector(v), Argument::Table(tab)],
        ),
        Con::Alldiff(v) => form(page, inst, "alldiff", &[Argument::Vector(v)]),
        Con::Lexleq(v, w) => form(
            page,
            inst,
            "lexleq",
            &[Argument::Vector(v), Argument::Vector(w)],
        ),
        Con::Lexless(v, w) => form(
            page,
            inst,
            "lexless",
            &[Argument::Vector(v), Argument::Vector(w)],
        ),
        Con::Watchvecneq(v, w) => form(
            page,
            inst,
            "watchvecneq",
            &[Argument::Vector(v), Argument::Vector(w)],
        ),
        Con::Hamming(v, w, k) => form(
            page,
            inst,
            "hamming",
            &[
                Argument::Vector(v),
                Argument::Vector(w),
                Argument::Number(*k),
            ],
        ),
        Con::Occurrence(v, k, x) => form(
            page,
            inst,
            "occurrence",
            &[
                Argument::Vector(v),
                Argument::Number(*k),
                Argument::Single(*x),
            ],
        ),
        Con::Occurrenceleq(v, k, k2) => form(
            page,
            inst,
            "occurrenceleq",
            &[
                Argument::Vector(v),
                Argument::Number(*k),
                Argument::Number(*k2),
            ],
        ),
        Con::Occurrencegeq(v, k, k2) => form(
            page,
            inst,
            "occurrencegeq",
            &[
                Argument::Vector(v),
                Argument::Number(*k),
                Argument::Number(*k2),
            ],
        ),
        Con::Nvalueleq(v, x) => form(
            page,
            inst,
            "nvalueleq",
            &[Argument::Vector(v), Argument::Single(*x)],
        ),
        Con::WLiteral(x, k) => form(
            page,
            inst,
            "w-literal",
            &[Argument::Single(*x), Argument::Number(*k)],
        ),
        Con::WNotliteral(x, k) => form(
            page,
            inst,
            "w-notliteral",
            &[Argument::Single(*x), Argument::Number(*k)],
        ),
        Con::WInset(x, ks) => form(
            page,
            inst,
            "w-inset",
            &[Argument::Single(*x), Argument::Numbers(ks)],
        ),
        Con::WNotinset(x, ks) => form(
            page,
            inst,
            "w-notinset",
            &[Argument::Single(*x), Argument::Numbers(ks)],
        ),
        Con::WInrange(x, k, k2) => form(
            page,
            inst,
            "w-inrange",
            &[Argument::Single(*x), Argument::Range(*k, *k2)],
        ),
        Con::WNotinrange(x, k, k2) => form(
            page,
            inst,
            "w-notinrange",
            &[Argument::Single(*x), Argument::Range(*k, *k2)],
        ),
        Con::WInintervalset(x, ks) => form(
            page,
            inst,
            "w-inintervalset",
            &[Argument::Single(*x), Argument::Numbers(ks)],
        ),
        Con::Always => form(page, inst, "true", &[]),
        Con::Never => form(page, inst, "false", &[]),
        Con::WatchedOr(children) => gathered(page, inst, "watched-or", children),
        Con::WatchedAnd(children) => gathered(page, inst, "watched-and", children),
        Con::Reify(part, r) => tied(page, inst, "reify", part.get(), *r),
        Con::Reifyimply(part, r) => tied(page, inst, "reifyimply", part.get(), *r),
        Con::Negated(part) => constraint(page, inst, part.get()),
    }
}

#[cycle(printing)]
#[tactic(auto, using(crate::proofs::Joining::onto_joined), unfolding(mn_canonical::specs::Constraints::form_text, mn_canonical::specs::Lists::braced))]
fn gathered(page: &mut Page, inst: &Instance, word: &str, cons: &Cons) -> Result<(), AllocError>
    ensures { OnOk result (page.new ≡ onto page.old (gathered_text word.now (children_texts inst.now cons.now))) }
{
    page.put(word.as_bytes())?;
    page.put(b"({")?;
    children(page, inst, cons)?;
    page.put(b"})")
}

// Writes children with a comma between each two.
#[cycle(printing)]
fn children(page: &mut Page, inst: &Instance, cons: &Cons) -> Result<(), AllocError>
    ensures { OnOk result (page.new ≡ onto page.old (with_commas (children_texts inst.now cons.now))) }
{
    match cons {
        Cons::End => Ok(()),
        Cons::More(first, others) => {
            constraint(page, inst, first.get())?;
            further_children(page, inst, others.get())
        }
    }
}

// Writes children with a comma before each.
#[cycle(printing)]
fn further_children(page: &mut Page, inst: &Instance, cons: &Cons) -> Result<(), AllocError>
    ensures { OnOk result (page.new ≡ onto page.old (flat_map (λ y. codes "," ++ y) (children_texts inst.now cons.now))) }
{
    let mut rest = cons;
    while let Cons::More(first, others) = rest {
        page.put(b",")?;
        constraint(page, inst, first.get())?;
        rest = others.get();
    }
    Ok(())
}

#[cycle(printing)]
#[tactic(auto, using(crate::proofs::Joining::onto_joined), unfolding(mn_canonical::specs::Constraints::form_text))]
fn tied(page: &mut Page, inst: &Instance, word: &str, con: &Con, r: Term) -> Result<(), AllocError>
    ensures { OnOk result (page.new ≡ onto page.old (form_text word.now (constraint_text inst.now con.now ∷ term_text inst.now r ∷ []))) }
{
    page.put(word.as_bytes())?;
    page.put(b"(")?;
    constraint(page, inst, con)?;
    page.put(b",")?;
    r.print_on(page, inst)?;
    page.put(b")")
}
