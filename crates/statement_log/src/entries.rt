ghost use Rattle.std.specs.Prelude.{◌≡◌, ◌↔◌, IsTrue, IfOk};

use crate::origins::Origin;
use ptc_statement::Statements;
use row_types::{Items, Plain, R};
use std::alloc::Global;

/// A transaction of the source's log, or an item of a replica's history.
#[derive(Debug, Drop)]
pub struct Entry {
    pub origin: Origin,
    pub statements: Statements,
}

/// Entries in order, of a log or of a history.
pub type Entries = Items<Entry>;

impl Entry {
    pub fn copy(&self, alloc: Global) -> R<Entry>
        ensures { IfOk result (λ copy. copy ≡ self.now) }
    {
        Ok(Entry {
            origin: self.origin.copy(alloc)?,
            statements: self.statements.copy(alloc)?,
        })
    }

    pub fn same(&self, other: &Entry) -> bool
        ensures { IsTrue result ↔ (self.now ≡ other.now) }
    {
        self.origin.same(&other.origin) && self.statements.same(&other.statements)
    }
}

impl Plain for Entry {
    fn copy(&self, alloc: Global) -> R<Entry> {
        Entry::copy(self, alloc)
    }

    fn same(&self, other: &Entry) -> bool {
        Entry::same(self, other)
    }
}
