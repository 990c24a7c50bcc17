//! Dimensions, with how many places they make kept beside them.
ghost use Rattle.std.specs.Prelude.{◌≡◌, ◌*◌, ◌≤◌, [], ◌∷◌, ◌++◌, OnOk, OnErr};
ghost use Rattle.mn_model.specs.Problem.{size_of_dims};
ghost use Rattle.mn_model.specs.declared.limits.TheConstants.{VARIABLES};

use mn_model::{Dims, NoMemory};
use std::alloc::Global;
use std::marker::Model;

/// Dimensions, and how many places they make. Contracts see the dimensions.
#[derive(Drop)]
pub struct Shape {
    dims: Dims,
    size: u64,
}

impl Model for Shape {
    ghost use Rattle.std.specs.Prelude.{◌≡◌, ℕ, List};
    ghost use Rattle.mn_model.specs.Problem.{size_of_dims};

    ghost Value = { List ℕ };

    ghost view = { λ s. s.dims };

    ghost invariant = { λ s. s.size ≡ size_of_dims s.dims };
}

impl Shape {
    /// No dimensions.
    pub fn new(alloc: Global) -> Shape
        ensures { result ≡ [] }
    {
        Shape {
            dims: Dims::new(alloc),
            size: 1,
        }
    }

    /// How many places there are.
    pub fn size(&self) -> u64
        ensures { result ≡ size_of_dims self.now }
    {
        self.size
    }

    /// One more dimension. After an `Err` the dimensions are the same.
    pub fn push(&mut self, dim: u32) -> Result<(), NoMemory>
        requires { size_of_dims self.old * dim ≤ VARIABLES }
        ensures ok { OnOk result (self.new ≡ self.old ++ dim ∷ []) }
        ensures err { OnErr result (self.new ≡ self.old) }
    {
        self.dims.push(dim)?;
        self.size *= u64::from(dim);
        Ok(())
    }

    /// The dimensions.
    pub fn into_dims(self) -> Dims
        ensures { result ≡ self }
    {
        self.dims
    }
}
