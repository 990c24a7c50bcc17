//! Items with commas between them, in brackets or without.
ghost use Rattle.std.specs.Prelude.{◌≡◌, ◌++◌, List, ℕ, codes, decimal, drop, map, take, OnOk};
ghost use Rattle.std.specs.Fmt.{signed_decimal};
ghost use Rattle.std.specs.List.{flat_map};
ghost use Rattle.mn_model.specs.Problem.{Problem};
ghost use Rattle.mn_canonical.specs.Lists.{bracketed, separated, with_commas};
ghost use Rattle.mn_printer.specs.Pages.{onto};

use crate::page::Page;
use mn_model::Instance;
use std::alloc::AllocError;

/// What is written as a part of an instance.
pub(crate) trait Printed {
    /// Its text.
    ghost text: { Problem → Self → List ℕ };

    fn print_on(&self, page: &mut Page, inst: &Instance) -> Result<(), AllocError>
        ensures { OnOk result (page.new ≡ onto page.old (text inst.now self.now)) };
}

impl Printed for i64 {
    ghost text = { λ _ k. signed_decimal k };

    fn print_on(&self, page: &mut Page, _inst: &Instance) -> Result<(), AllocError> {
        page.put_number(*self)
    }
}

impl Printed for u32 {
    ghost text = { λ _ n. decimal n };

    fn print_on(&self, page: &mut Page, _inst: &Instance) -> Result<(), AllocError> {
        page.put_count(*self as u64)
    }
}

/// Writes items with a separator between each two.
pub(crate) fn separated<T: Printed>(
    page: &mut Page,
    inst: &Instance,
    separator: &[u8],
    items: &[T],
) -> Result<(), AllocError>
    ensures { OnOk result (page.new ≡ onto page.old (separated separator.now (map (T.text inst.now) items.now))) }
{
    match items {
        [] => Ok(()),
        [first, others @ ..] => {
            first.print_on(page, inst)?;
            each_behind(page, inst, separator, others)
        }
    }
}

// Writes items with a separator before each.
fn each_behind<T: Printed>(
    page: &mut Page,
    inst: &Instance,
    separator: &[u8],
    items: &[T],
) -> Result<(), AllocError>
    ensures { OnOk result (page.new ≡ onto page.old (flat_map (λ y. separator.now ++ y) (map (T.text inst.now) items.now))) }
{
    for item in items {
        page.put(separator)?;
        item.print_on(page, inst)?;
    }
    Ok(())
}

/// Writes items with a comma between each two.
pub(crate) fn with_commas<T: Printed>(
    page: &mut Page,
    inst: &Instance,
    items: &[T],
) -> Result<(), AllocError>
    ensures { OnOk result (page.new ≡ onto page.old (with_commas (map (T.text inst.now) items.now))) }
{
    separated(page, inst, b",", items)
}

/// Writes items in brackets.
#[tactic(auto, using(crate::proofs::Joining::onto_joined), unfolding(mn_canonical::specs::Lists::bracketed))]
pub(crate) fn bracketed<T: Printed>(
    page: &mut Page,
    inst: &Instance,
    items: &[T],
) -> Result<(), AllocError>
    ensures { OnOk result (page.new ≡ onto page.old (bracketed (map (T.text inst.now) items.now))) }
{
    page.put(b"[")?;
    with_commas(page, inst, items)?;
    page.put(b"]")
}

/// A row of so many items, or of as many as there are, and what is after it.
pub(crate) fn row_and_rest<T>(items: &[T], size: usize) -> (&[T], &[T])
    ensures row { result.0.now ≡ take size items.now }
    ensures rest { result.1.now ≡ drop size items.now }
{
    items.split_at(size.min(items.len()))
}
