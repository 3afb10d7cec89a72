ghost use Rattle.std.specs.Prelude.{◌≡◌, ◌↔◌, IsTrue, IfOk};

use row_types::{Items, Plain, R};
use std::alloc::Global;

/// Who takes turns. All are numbered from 1.
#[derive(Clone, Copy, Debug, PartialEq, Eq)]
pub enum Actor {
    /// a session on the source
    Session(u32),
    /// the checksum tool
    Tool,
    /// the sync tool at a replica
    Sync(u32),
    /// a worker of a replica's applier
    Worker { replica: u32, worker: u32 },
    /// a session on a replica
    Local { replica: u32, session: u32 },
}

/// Actors, one behind the other.
pub type Actors = Items<Actor>;

impl Actor {
    pub fn copy(&self, _alloc: Global) -> R<Actor>
        ensures { IfOk result (λ copy. copy ≡ self.now) }
    {
        Ok(*self)
    }

    pub fn same(&self, other: &Actor) -> bool
        ensures { IsTrue result ↔ (self.now ≡ other.now) }
    {
        *self == *other
    }
}

impl Plain for Actor {
    fn copy(&self, alloc: Global) -> R<Actor> {
        Actor::copy(self, alloc)
    }

    fn same(&self, other: &Actor) -> bool {
        Actor::same(self, other)
    }
}
