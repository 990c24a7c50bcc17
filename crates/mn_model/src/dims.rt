//! Dimensions of a matrix: how many entries they give, and where an entry stands.
ghost use Rattle.std.specs.Prelude.{◌≡◌, ◌≤◌, ◌<◌, ◌^◌, IfSome};
ghost use Rattle.std.specs.List.{AllByRecursion};
ghost use Rattle.mn_model.specs.Problem.{offset_from, size_of_dims};

use super::VARIABLES;

/// How many places a matrix of these dimensions has.
pub fn size_of(dims: &[u32]) -> usize
    requires shaped { AllByRecursion (λ dim. 1 ≤ dim) dims.now }
    requires few { size_of_dims dims.now ≤ VARIABLES }
    ensures { result ≡ size_of_dims dims.now }
{
    let mut size: usize = 1;
    for dim in dims {
        size *= *dim as usize;
    }
    size
}

/// The place of an entry in a matrix of these dimensions, counted from 0, the last index running fastest. None where
/// there are more or fewer indices than dimensions, or where an index is not below its dimension.
pub fn offset_of(dims: &[u32], subs: &[u32]) -> Option<usize>
    requires shaped { AllByRecursion (λ dim. 1 ≤ dim) dims.now }
    requires few { size_of_dims dims.now < 2 ^ 64 }
    ensures place { result ≡ offset_from 0 dims.now subs.now }
    ensures within { IfSome result (λ offset. offset < size_of_dims dims.now) }
{
    if dims.len() != subs.len() {
        return None;
    }
    let mut offset: usize = 0;
    for (i, dim) in dims.iter().enumerate() {
        if subs[i] >= *dim {
            return None;
        }
        offset = offset * *dim as usize + subs[i] as usize;
    }
    Some(offset)
}
