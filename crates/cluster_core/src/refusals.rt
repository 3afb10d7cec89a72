ghost use Rattle.std.specs.Prelude.{◌≡◌, ◌↔◌, IsTrue, IfOk};

use row_types::R;
use std::alloc::Global;

/// A line of a script that was refused as a duplicate: its number in the file, and how many entries the
/// source's log had when the session played it.
#[derive(Clone, Copy, Debug, PartialEq, Eq)]
pub struct Refusal {
    pub line: u32,
    pub position: u64,
}

impl Refusal {
    pub fn copy(&self, _alloc: Global) -> R<Refusal>
        ensures { IfOk result (λ copy. copy ≡ self.now) }
    {
        Ok(*self)
    }

    pub fn same(&self, other: &Refusal) -> bool
        ensures { IsTrue result ↔ (self.now ≡ other.now) }
    {
        *self == *other
    }
}
