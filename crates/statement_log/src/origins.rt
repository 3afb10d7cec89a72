ghost use Rattle.std.specs.Prelude.{◌≡◌, ◌↔◌, IsTrue, IfOk};

use row_types::{R, Span};
use std::alloc::Global;

/// Who wrote an entry. Sessions, replicas and local sessions are counted from 1, tables from 0.
#[derive(Debug, Drop)]
pub enum Origin {
    /// A session.
    Session(u32),
    /// The checksum tool.
    Checksum,
    /// The repair tool of a replica, with the table and the span of the chunk that it repaired.
    Sync {
        replica: u32,
        table: u32,
        span: Span,
    },
    /// A local session of the replica.
    Local(u32),
    /// A worker of the replica, which applied the source's entry of this number.
    Applied(u64),
}

impl Origin {
    pub fn copy(&self, alloc: Global) -> R<Origin>
        ensures { IfOk result (λ copy. copy ≡ self.now) }
    {
        match self {
            Origin::Session(session) => Ok(Origin::Session(*session)),
            Origin::Checksum => Ok(Origin::Checksum),
            Origin::Sync {
                replica,
                table,
                span,
            } => Ok(Origin::Sync {
                replica: *replica,
                table: *table,
                span: span.copy(alloc)?,
            }),
            Origin::Local(session) => Ok(Origin::Local(*session)),
            Origin::Applied(entry) => Ok(Origin::Applied(*entry)),
        }
    }

    pub fn same(&self, other: &Origin) -> bool
        ensures { IsTrue result ↔ (self.now ≡ other.now) }
    {
        match (self, other) {
            (Origin::Session(ours), Origin::Session(theirs)) => ours == theirs,
            (Origin::Checksum, Origin::Checksum) => true,
            (
                Origin::Sync {
                    replica,
                    table,
                    span,
                },
                Origin::Sync {
                    replica: other_replica,
                    table: other_table,
                    span: other_span,
                },
            ) => replica == other_replica && table == other_table && span.same(other_span),
            (Origin::Local(ours), Origin::Local(theirs)) => ours == theirs,
            (Origin::Applied(ours), Origin::Applied(theirs)) => ours == theirs,
            _ => false,
        }
    }
}
