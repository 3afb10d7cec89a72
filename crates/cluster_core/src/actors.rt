ghost use Rattle.std.specs.Prelude.{◌≡◌, ◌↔◌, IsTrue, IfOk};

use row_types::R;
use std::alloc::Global;

/// What the checksum tool does next. Tables are numbered from 0.
#[derive(Clone, Copy, Debug, PartialEq, Eq)]
pub enum ToolPhase {
    /// Logs CLEARCHECKS of the table.
    Clear { table: u32 },
    /// Logs the table's CHECKSUM.
    Check { table: u32 },
    /// Publishes the checksum that its CHECKSUM found on the source.
    Master { table: u32 },
    Finished,
}

impl ToolPhase {
    pub fn copy(&self, _alloc: Global) -> R<ToolPhase>
        ensures { IfOk result (λ copy. copy ≡ self.now) }
    {
        Ok(*self)
    }

    pub fn same(&self, other: &ToolPhase) -> bool
        ensures { IsTrue result ↔ (self.now ≡ other.now) }
    {
        *self == *other
    }
}
