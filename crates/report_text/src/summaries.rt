ghost use Rattle.std.specs.Prelude.{◌≡◌, ◌↔◌, IsTrue, IfOk};

use checksum_table::Verdict;
use row_types::{Items, Plain, R, Schemas, Span, Tables};
use statement_log::Entries;
use std::alloc::Global;
use workload_file::Actor;

/// What a VERDICT line says of a replica's chunk. A count that isn't known is `None`.
#[derive(Debug, Drop)]
pub struct VerdictLine {
    pub replica: u32,
    pub table: u32,
    pub chunk: u32,
    pub span: Span,
    /// The log position of the chunk's CHECKSUM.
    pub position: u64,
    /// The source's count of rows.
    pub master: Option<u64>,
    /// The replica's count of rows.
    pub own: Option<u64>,
    pub verdict: Verdict,
}

/// Whether a replica's table has the source's rows.
#[derive(Debug, Drop)]
pub struct EqualLine {
    pub replica: u32,
    pub table: u32,
    pub equal: bool,
}

/// A line of an actor's script that was refused as a duplicate, by its number in the file.
#[derive(Debug, Drop)]
pub struct DuplicateLine {
    pub actor: Actor,
    pub line: u32,
}

/// The rows of each node's tables, the source first, then the replicas by rising number.
pub type NodeTables = Items<Tables>;

/// The items of each replica's history, by rising number.
pub type Histories = Items<Entries>;

pub type VerdictLines = Items<VerdictLine>;

pub type EqualLines = Items<EqualLine>;

pub type DuplicateLines = Items<DuplicateLine>;

/// What a report says, in the order in which it is printed.
#[derive(Debug, Drop)]
pub struct Summary {
    pub schemas: Schemas,
    /// The rows that each node began with.
    pub start: NodeTables,
    pub log: Entries,
    pub histories: Histories,
    pub verdicts: VerdictLines,
    /// The rows that each node has at the end.
    pub finals: NodeTables,
    pub equal: EqualLines,
    pub duplicates: DuplicateLines,
    pub status: u8,
}

impl VerdictLine {
    pub fn copy(&self, alloc: Global) -> R<VerdictLine>
        ensures { IfOk result (λ copy. copy ≡ self.now) }
    {
        Ok(VerdictLine {
            replica: self.replica,
            table: self.table,
            chunk: self.chunk,
            span: self.span.copy(alloc)?,
            position: self.position,
            master: self.master,
            own: self.own,
            verdict: self.verdict,
        })
    }

    pub fn same(&self, other: &VerdictLine) -> bool
        ensures { IsTrue result ↔ (self.now ≡ other.now) }
    {
        let same_place = self.replica == other.replica
            && self.table == other.table
            && self.chunk == other.chunk
            && self.span.same(&other.span)
            && self.position == other.position;
        same_place
            && self.master == other.master
            && self.own == other.own
            && self.verdict.same(&other.verdict)
    }
}

impl EqualLine {
    pub fn copy(&self, _alloc: Global) -> R<EqualLine>
        ensures { IfOk result (λ copy. copy ≡ self.now) }
    {
        Ok(EqualLine {
            replica: self.replica,
            table: self.table,
            equal: self.equal,
        })
    }

    pub fn same(&self, other: &EqualLine) -> bool
        ensures { IsTrue result ↔ (self.now ≡ other.now) }
    {
        self.replica == other.replica && self.table == other.table && self.equal == other.equal
    }
}

impl DuplicateLine {
    pub fn copy(&self, _alloc: Global) -> R<DuplicateLine>
        ensures { IfOk result (λ copy. copy ≡ self.now) }
    {
        Ok(DuplicateLine {
            actor: self.actor,
            line: self.line,
        })
    }

    pub fn same(&self, other: &DuplicateLine) -> bool
        ensures { IsTrue result ↔ (self.now ≡ other.now) }
    {
        self.actor == other.actor && self.line == other.line
    }
}

impl Plain for VerdictLine {
    fn copy(&self, alloc: Global) -> R<VerdictLine> {
        VerdictLine::copy(self, alloc)
    }

    fn same(&self, other: &VerdictLine) -> bool {
        VerdictLine::same(self, other)
    }
}

impl Plain for EqualLine {
    fn copy(&self, alloc: Global) -> R<EqualLine> {
        EqualLine::copy(self, alloc)
    }

    fn same(&self, other: &EqualLine) -> bool {
        EqualLine::same(self, other)
    }
}

impl Plain for DuplicateLine {
    fn copy(&self, alloc: Global) -> R<DuplicateLine> {
        DuplicateLine::copy(self, alloc)
    }

    fn same(&self, other: &DuplicateLine) -> bool {
        DuplicateLine::same(self, other)
    }
}

impl Summary {
    pub fn copy(&self, alloc: Global) -> R<Summary>
        ensures { IfOk result (λ copy. copy ≡ self.now) }
    {
        Ok(Summary {
            schemas: self.schemas.copy(alloc)?,
            start: self.start.copy(alloc)?,
            log: self.log.copy(alloc)?,
            histories: self.histories.copy(alloc)?,
            verdicts: self.verdicts.copy(alloc)?,
            finals: self.finals.copy(alloc)?,
            equal: self.equal.copy(alloc)?,
            duplicates: self.duplicates.copy(alloc)?,
            status: self.status,
        })
    }

    pub fn same(&self, other: &Summary) -> bool
        ensures { IsTrue result ↔ (self.now ≡ other.now) }
    {
        let same_run = self.schemas.same(&other.schemas)
            && self.start.same(&other.start)
            && self.log.same(&other.log)
            && self.histories.same(&other.histories);
        same_run
            && self.verdicts.same(&other.verdicts)
            && self.finals.same(&other.finals)
            && self.equal.same(&other.equal)
            && self.duplicates.same(&other.duplicates)
            && self.status == other.status
    }
}
