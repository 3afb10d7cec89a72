ghost use Rattle.std.specs.Prelude.{◌≡◌, ◌↔◌, [], ◌∷◌, None, Some, IsSome, length, IfOk, IfErr, OnOk, OnErr};
ghost use Rattle.ptc_statement.specs.declared.statements.Statement.TheVariants.{SetMaster};
ghost use Rattle.checksum_table.specs.Checks.{check_at};
ghost use Rattle.node_model.specs.Calls.{after_call, Publish};
ghost use Rattle.node_parts.specs.Kept.{node_view, PartsKept};
ghost use Rattle.node_parts.specs.KeptReads.{ReadsKept};
ghost use Rattle.node_engine.specs.declared.publishing.MasterFault.TheVariants.{NoCheck};

use crate::commits::append_reserved;
use node_parts::Parts;
use ptc_statement::{Statement, Statements};
use row_types::{Digest, DigestKind, Memory, R};
use statement_log::{Entry, Origin};
use std::alloc::Global;

/// Why no checksum was published.
#[derive(Clone, Copy, Debug, PartialEq, Eq)]
pub enum MasterFault {
    /// The chunk has no check row.
    NoCheck,
    Memory,
}

impl From<Memory> for MasterFault {
    ghost use Rattle.node_engine.specs.declared.publishing.MasterFault.TheVariants.{Memory as OutOfMemory};

    ghost from_gives = { λ _ e. e ≡ OutOfMemory };

    fn from(_error: Memory) -> MasterFault {
        MasterFault::Memory
    }
}

/// The node's own checksum of a chunk is published, as an entry of its own.
pub fn publish_parts(
    alloc: Global,
    table: u32,
    chunk: u32,
    parts: &mut Parts,
) -> Result<u64, MasterFault>
    requires kept { PartsKept parts.old }
    requires reads { ReadsKept parts.old }
    ensures position { IfOk result (λ position. position ≡ length parts.new.history.entries) }
    ensures ok { OnOk result (node_view parts.new ≡ after_call (Publish table chunk) (node_view parts.old)) }
    ensures there { OnOk result (IsSome (check_at table chunk parts.old.checks)) }
    ensures none { IfErr result (λ fault. (fault ≡ NoCheck) ↔ (check_at table chunk parts.old.checks ≡ None)) }
    ensures err { OnErr result (node_view parts.new ≡ node_view parts.old) }
    ensures kept { PartsKept parts.new }
    ensures reads { ReadsKept parts.new }
{
    let (kind, this) = match parts.checks.get(table, chunk) {
        None => return Err(MasterFault::NoCheck),
        Some(row) => (row.kind, row.this),
    };
    let statements = publication(alloc, table, chunk, kind, this)?;
    parts.history.reserve()?;
    parts.checks.set_master(table, chunk, this);
    let position = append_reserved(
        &mut parts.history,
        Entry {
            origin: Origin::Checksum,
            statements,
        },
    );
    Ok(position)
}

fn publication(
    alloc: Global,
    table: u32,
    chunk: u32,
    kind: DigestKind,
    master: Digest,
) -> R<Statements>
    ensures { IfOk result (λ statements. statements ≡ SetMaster table chunk kind master ∷ []) }
{
    let mut statements = Statements::new(alloc);
    statements.push(Statement::SetMaster {
        table,
        chunk,
        kind,
        master,
    })?;
    Ok(statements)
}
