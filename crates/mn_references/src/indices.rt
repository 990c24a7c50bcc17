//! The indices of a reference, and the variables that they lead to.
ghost use Rattle.std.specs.Prelude.{◌≡◌, [], ◌∷◌, ◌+◌, ◌*◌, ◌^◌, ◌<◌, ◌≤◌, ◌++◌, map, true, false, length, IfOk, OnOk};
ghost use Rattle.std.specs.List.{AllByRecursion, range_with_len};
ghost use Rattle.mn_references.specs.References.{as_index, at_start, entered, is_only, is_outside, index_kind, places_from, places_below};
ghost use Rattle.mn_model.specs.Problem.{size_of_dims};
ghost use Rattle.mn_references.specs.Lookups.{is_fine, sub_seen, within_seen, IsInside};

use crate::lookup::Lookup;
use mn_grammar::Kind;
use std::alloc::{AllocError, Global};

/// An index.
#[derive(Clone, Copy, Debug)]
pub enum Index {
    Only(i64),
    /// `_`, which is each of them.
    Each,
}

impl Index {
    /// Whether it is a number.
    pub fn is_only(&self) -> bool
        ensures { result ≡ is_only (sub_seen self.now) }
    {
        match self {
            Index::Only(_) => true,
            Index::Each => false,
        }
    }
}

/// What an index breaks, where these dimensions are left.
pub fn index_kind(slices: bool, dims: &[u32], index: Index) -> Option<Kind>
    ensures { result ≡ index_kind slices dims.now (sub_seen index) }
{
    let broken = match index {
        Index::Only(i) => match dims {
            [] => false,
            [dim, ..] => i < 0 || i >= i64::from(*dim),
        },
        Index::Each => !slices,
    };
    if broken { Some(Kind::Shape) } else { None }
}

/// Where indices lead: the dimensions that are left, the places among those of the dimensions before, and whether all
/// indices are numbers.
#[derive(Drop)]
pub struct Indices<'c> {
    pub dims: &'c [u32],
    pub places: Vec<usize>,
    pub full: bool,
    /// How many places the whole matrix has.
    pub size: usize,
}

// Adds the numbers after `base`, so many of them.
fn push_row(out: &mut Vec<usize>, base: usize, dim: usize) -> Result<(), AllocError>
    requires { base + dim < 2 ^ 64 }
    ensures { OnOk result (out.new.items ≡ out.old.items ++ map (λ i. base + i) (range_with_len 0 dim)) }
{
    for i in 0..dim {
        out.push(base + i)?;
    }
    Ok(())
}

// Adds the places that an index leads to from one place.
fn push_places(
    out: &mut Vec<usize>,
    place: usize,
    dim: usize,
    index: Index,
) -> Result<(), AllocError>
    requires fits { (place + 1) * dim < 2 ^ 64 }
    requires within { is_fine (dim ∷ []) (sub_seen index) ≡ true }
    ensures { OnOk result (out.new.items ≡ out.old.items ++ places_from dim (sub_seen index) place) }
{
    match index {
        Index::Only(i) => {
            out.push(place * dim + i as usize)?;
            Ok(())
        }
        Index::Each => push_row(out, place * dim, dim),
    }
}

// The places that an index leads to from these.
fn places_below(
    alloc: Global,
    places: &[usize],
    dim: usize,
    index: Index,
) -> Result<Vec<usize>, AllocError>
    requires fits { AllByRecursion (λ place. (place + 1) * dim < 2 ^ 64) places.now }
    requires within { is_fine (dim ∷ []) (sub_seen index) ≡ true }
    ensures { IfOk result (λ r. r.items ≡ places_below dim (sub_seen index) places.now) }
{
    let mut out = Vec::new(alloc);
    let mut left = places;
    while let [place, rest @ ..] = left {
        push_places(&mut out, *place, dim, index)?;
        left = rest;
    }
    Ok(out)
}

impl<'c> Indices<'c> {
    /// No index yet.
    pub fn start(alloc: Global, lookup: &Lookup<'c>) -> Result<Indices<'c>, AllocError>
        requires shaped { AllByRecursion (λ dim. 1 ≤ dim) lookup.now.dims.now }
        requires size { lookup.now.size ≡ size_of_dims lookup.now.dims.now }
        ensures seen { IfOk result (λ i. within_seen i ≡ at_start lookup.now.dims.now) }
        ensures inside { IfOk result IsInside }
        ensures size { IfOk result (λ i. i.size ≡ lookup.now.size) }
    {
        let mut places = Vec::new(alloc);
        places.push(0)?;
        Ok(Indices {
            dims: lookup.dims,
            places,
            full: true,
            size: lookup.size,
        })
    }

    /// With one more index. One that is too many leads nowhere.
    pub fn entered(self, index: Index) -> Result<Indices<'c>, AllocError>
        requires inside { IsInside self }
        requires fine { is_fine self.dims.now (sub_seen index) ≡ true }
        ensures seen { IfOk result (λ i. within_seen i ≡ entered (within_seen self.entry) (sub_seen index)) }
        ensures inside { IfOk result IsInside }
        ensures size { IfOk result (λ i. i.size ≡ self.entry.size) }
    {
        let Indices {
            dims,
            places,
            full,
            size,
        } = self;
        match dims {
            [] => Ok(Indices {
                dims,
                places,
                full,
                size,
            }),
            [dim, rest @ ..] => Ok(Indices {
                dims: rest,
                places: places_below(*places.allocator(), places.as_slice(), *dim as usize, index)?,
                full: full && index.is_only(),
                size,
            }),
        }
    }
}
