ghost use Rattle.std.specs.Prelude.{◌≡◌, ◌↔◌, IsTrue, IfOk};

use row_types::{DigestKind, R};
use std::alloc::Global;

/// What a run is asked for, beside its workload.
#[derive(Clone, Copy, Debug, PartialEq, Eq)]
pub struct RunOptions {
    /// How often a transaction or a chunk that was rolled back is begun again.
    pub retries: u32,
    /// The digest that checksums are made of.
    pub kind: DigestKind,
    /// How many workers the applier of each replica has.
    pub workers: u32,
    /// How many moves a run may make.
    pub most_moves: u64,
}

impl RunOptions {
    pub fn copy(&self, _alloc: Global) -> R<RunOptions>
        ensures { IfOk result (λ copy. copy ≡ self.now) }
    {
        Ok(*self)
    }

    pub fn same(&self, other: &RunOptions) -> bool
        ensures { IsTrue result ↔ (self.now ≡ other.now) }
    {
        *self == *other
    }
}
