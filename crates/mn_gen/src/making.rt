//! Making a model of a kind, a seed and a size.
ghost use Rattle.std.specs.Prelude.{◌≡◌, ◌≤◌, IfOk};
ghost use Rattle.mn_gen.specs.Generated.{generated};
ghost use Rattle.mn_gen.specs.Made.{IsMade};

use crate::fault::{GREATEST_SIZE, GenFault};
use crate::kind::GenKind;
use crate::queens::queens;
use crate::tables::tables;
use mn_model::Instance;
use std::alloc::{AllocError, Global};

/// The model of a kind, a seed and a size: for queens the number of rows, for tables the number of variables and of lists.
pub fn make(alloc: Global, kind: GenKind, seed: u64, n: u64) -> Result<Instance, GenFault>
    ensures { IsMade kind seed n result }
{
    if n < 1 || GREATEST_SIZE < n {
        return Err(GenFault::Size(n));
    }
    match of_size(alloc, kind, seed, n as u32) {
        Ok(inst) => Ok(inst),
        Err(AllocError) => Err(GenFault::NoMemory),
    }
}

fn of_size(alloc: Global, kind: GenKind, seed: u64, n: u32) -> Result<Instance, AllocError>
    requires least { 1 ≤ n }
    requires few { n ≤ 64 }
    ensures { IfOk result (λ inst. inst ≡ generated kind seed n) }
{
    match kind {
        GenKind::Queens => queens(alloc, n),
        GenKind::Tables => tables(alloc, seed, n),
    }
}
