ghost use Rattle.std.specs.Prelude.{◌≡◌, ◌↔◌, IsTrue, IfOk};

use row_types::R;
use std::alloc::Global;

/// Who takes turns: the sessions, the checksum tool, and the workers of the replicas. All are numbered
/// from 1.
#[derive(Clone, Copy, Debug, PartialEq, Eq)]
pub enum Actor {
    Session(u32),
    Tool,
    Worker { replica: u32, worker: u32 },
}

impl Actor {
    pub fn copy(&self, _alloc: Global) -> R<Actor>
        ensures { IfOk result (λ copy. copy ≡ self.now) }
    {
        Ok(*self)
    }

    pub fn same(&self, other: &Actor) -> bool
        ensures { IsTrue result ↔ (self.now ≡ other.now) }
    {
        *self == *other
    }
}
