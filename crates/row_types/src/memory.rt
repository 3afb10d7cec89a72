ghost use Rattle.std.specs.Prelude.{◌≡◌, ◌↔◌, IsTrue, IfOk};
ghost use Rattle.row_types.specs.declared.memory.Memory.{Memory};

use std::alloc::{AllocError, AllocFailed, Global};

/// Out of memory: an allocation failed.
#[derive(Clone, Copy, Debug, PartialEq, Eq)]
pub struct Memory;

/// What a call gives that is refused only when out of memory.
pub type R<T> = Result<T, Memory>;

impl Memory {
    pub fn copy(&self, _alloc: Global) -> R<Memory>
        ensures { IfOk result (λ copy. copy ≡ self.now) }
    {
        Ok(Memory)
    }

    pub fn same(&self, _other: &Memory) -> bool
        ensures { IsTrue result ↔ (self.now ≡ _other.now) }
    {
        true
    }
}

impl From<AllocError> for Memory {
    fn from(_error: AllocError) -> Memory {
        Memory
    }
}

impl<T: Drop> From<AllocFailed<T>> for Memory {
    fn from(_error: AllocFailed<T>) -> Memory {
        Memory
    }
}
