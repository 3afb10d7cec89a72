ghost use Rattle.std.specs.Prelude.{◌≡◌, ◌↔◌, IsTrue, IfOk};

use crate::memory::R;
use std::alloc::Global;

/// Why a row does not fit a schema: it has another number of values than the schema has columns, or
/// the value in a column (counted from 0) is NULL where the column takes none, is of another kind,
/// is a number outside the column's range, or is a text of more bytes than the column takes.
#[derive(Clone, Copy, Debug, PartialEq, Eq)]
pub enum RowFault {
    Arity { got: u32, want: u32 },
    NullIn { column: u32 },
    Kind { column: u32 },
    OutOfRange { column: u32, value: i64 },
    TooLong { column: u32, len: u32 },
}

impl RowFault {
    pub fn copy(&self, _alloc: Global) -> R<RowFault>
        ensures { IfOk result (λ copy. copy ≡ self.now) }
    {
        Ok(*self)
    }

    pub fn same(&self, other: &RowFault) -> bool
        ensures { IsTrue result ↔ (self.now ≡ other.now) }
    {
        *self == *other
    }
}
