ghost use Rattle.std.specs.Prelude.{◌≡◌, ◌↔◌, IsTrue, IfOk};
ghost use Rattle.checksum_table.specs.Checks.{verdict_of_row};

use row_types::{Digest, DigestKind, Plain, R, Span};
use std::alloc::Global;

/// A chunk's row of the checksums table, as one node has it: what its CHECKSUM was asked, the
/// checksum of its own rows, the source's checksum where it is published, and the log position of
/// the CHECKSUM, counted from 1.
#[derive(Debug, Drop)]
pub struct CheckRow {
    pub span: Span,
    pub kind: DigestKind,
    pub this: Digest,
    pub master: Option<Digest>,
    pub position: u64,
}

/// A check row and the chunk of a table that it is for.
#[derive(Debug, Drop)]
pub struct CheckEntry {
    pub table: u32,
    pub chunk: u32,
    pub row: CheckRow,
}

/// What a check row says of the replica's chunk.
#[derive(Clone, Copy, Debug, PartialEq, Eq)]
pub enum Verdict {
    Same,
    Differ,
    Pending,
}

impl Verdict {
    pub fn copy(&self, _alloc: Global) -> R<Verdict>
        ensures { IfOk result (λ copy. copy ≡ self.now) }
    {
        Ok(*self)
    }

    pub fn same(&self, other: &Verdict) -> bool
        ensures { IsTrue result ↔ (self.now ≡ other.now) }
    {
        *self == *other
    }
}

impl CheckRow {
    pub(crate) fn verdict(&self) -> Verdict
        ensures { result ≡ verdict_of_row self.now }
    {
        match &self.master {
            None => Verdict::Pending,
            Some(master) => {
                if master.same(&self.this) {
                    Verdict::Same
                } else {
                    Verdict::Differ
                }
            }
        }
    }

    pub fn copy(&self, alloc: Global) -> R<CheckRow>
        ensures { IfOk result (λ copy. copy ≡ self.now) }
    {
        Ok(CheckRow {
            span: self.span.copy(alloc)?,
            kind: self.kind,
            this: self.this,
            master: self.master,
            position: self.position,
        })
    }

    pub fn same(&self, other: &CheckRow) -> bool
        ensures { IsTrue result ↔ (self.now ≡ other.now) }
    {
        self.span.same(&other.span)
            && self.kind.same(&other.kind)
            && self.this.same(&other.this)
            && same_master(&self.master, &other.master)
            && self.position == other.position
    }
}

fn same_master(ours: &Option<Digest>, theirs: &Option<Digest>) -> bool
    ensures { IsTrue result ↔ (ours.now ≡ theirs.now) }
{
    match (ours, theirs) {
        (None, None) => true,
        (Some(ours), Some(theirs)) => ours.same(theirs),
        _ => false,
    }
}

impl CheckEntry {
    pub fn copy(&self, alloc: Global) -> R<CheckEntry>
        ensures { IfOk result (λ copy. copy ≡ self.now) }
    {
        Ok(CheckEntry {
            table: self.table,
            chunk: self.chunk,
            row: self.row.copy(alloc)?,
        })
    }

    pub fn same(&self, other: &CheckEntry) -> bool
        ensures { IsTrue result ↔ (self.now ≡ other.now) }
    {
        self.table == other.table && self.chunk == other.chunk && self.row.same(&other.row)
    }
}

impl Plain for CheckEntry {
    fn copy(&self, alloc: Global) -> R<CheckEntry> {
        CheckEntry::copy(self, alloc)
    }

    fn same(&self, other: &CheckEntry) -> bool {
        CheckEntry::same(self, other)
    }
}
