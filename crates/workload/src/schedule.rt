ghost use Rattle.std.specs.Prelude.{◌≡◌, ◌↔◌, IsTrue, IfOk};

use crate::actors::Actor;
use row_types::{Items, Plain, R};
use std::alloc::Global;

/// What a schedule names: a turn of an actor, or an operator's word.
#[derive(Clone, Copy, Debug, PartialEq, Eq)]
pub enum Item {
    Turn(Actor),
    StopTool,
    ResumeTool,
    /// the replica whose workers stop
    StopReplica(u32),
    StartReplica(u32),
}

/// The items of a schedule, in the order in which they are played, turn for turn.
pub type Schedule = Items<Item>;

impl Item {
    pub fn copy(&self, _alloc: Global) -> R<Item>
        ensures { IfOk result (λ copy. copy ≡ self.now) }
    {
        Ok(*self)
    }

    pub fn same(&self, other: &Item) -> bool
        ensures { IsTrue result ↔ (self.now ≡ other.now) }
    {
        *self == *other
    }
}

impl Plain for Item {
    fn copy(&self, alloc: Global) -> R<Item> {
        Item::copy(self, alloc)
    }

    fn same(&self, other: &Item) -> bool {
        Item::same(self, other)
    }
}
