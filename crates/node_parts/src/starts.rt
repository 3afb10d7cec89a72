ghost use Rattle.std.specs.Prelude.{◌≡◌, None, OnOk, OnErr, IfOk};
ghost use Rattle.ptc_statement.specs.Fits.{FitsSchemas};
ghost use Rattle.node_model.specs.Txns.{txn_of};
ghost use Rattle.node_model.specs.Node.{begun, start_of};
ghost use Rattle.node_model.specs.Calls.{after_call, Start as StartCall};
ghost use Rattle.node_parts.specs.Kept.{node_view, PartsKept};
ghost use Rattle.node_parts.specs.KeptReads.{ReadsKept};
ghost use Rattle.node_parts.specs.Views.{IsIdle};

use crate::parts::Parts;
use lock_table::Owner;
use node_model::{Part, Txn, Walk};
use node_reads::{put_unread, unread};
use ptc_statement::{Statement, Statements, reach};
use row_types::{Edge, R, Schemas, Span};
use std::alloc::Global;

/// Begins a transaction of an owner that has none.
pub fn begin_parts(alloc: Global, owner: Owner, part: Part, parts: &mut Parts) -> R<()>
    requires kept { PartsKept parts.old }
    requires reads { ReadsKept parts.old }
    requires none { txn_of owner.0 parts.old.txns ≡ None }
    ensures ok { OnOk result (node_view parts.new ≡ begun owner part (node_view parts.old)) }
    ensures err { OnErr result (node_view parts.new ≡ node_view parts.old) }
    ensures kept { PartsKept parts.new }
    ensures reads { ReadsKept parts.new }
{
    parts.reads.reserve(1)?;
    parts.txns.begin(Txn {
        owner,
        part,
        done: Statements::new(alloc),
        current: None,
    })?;
    put_unread(&mut parts.reads, unread(alloc, owner));
    Ok(())
}

/// Puts a statement in progress in a transaction that has none.
pub fn start_parts(alloc: Global, owner: Owner, statement: Statement, parts: &mut Parts) -> R<()>
    requires kept { PartsKept parts.old }
    requires reads { ReadsKept parts.old }
    requires idle { IsIdle owner.0 (node_view parts.old) }
    requires fits { FitsSchemas parts.old.schemas.tables statement }
    ensures ok { OnOk result (node_view parts.new ≡ after_call (StartCall owner statement) (node_view parts.old)) }
    ensures err { OnErr result (node_view parts.new ≡ node_view parts.old) }
    ensures kept { PartsKept parts.new }
    ensures reads { ReadsKept parts.new }
{
    let cursor = start_of(alloc, &statement, &parts.schemas)?;
    start_at(owner, statement, cursor, parts);
    Ok(())
}

/// Puts a statement in progress whose walk begins at the cursor, without memory.
pub fn start_at(owner: Owner, statement: Statement, cursor: Edge, parts: &mut Parts)
    requires kept { PartsKept parts.old }
    requires reads { ReadsKept parts.old }
    requires idle { IsIdle owner.0 (node_view parts.old) }
    requires fits { FitsSchemas parts.old.schemas.tables statement }
    requires cursor { cursor ≡ start_of parts.old.schemas.tables statement }
    ensures view { node_view parts.new ≡ after_call (StartCall owner statement) (node_view parts.old) }
    ensures kept { PartsKept parts.new }
    ensures reads { ReadsKept parts.new }
{
    parts.txns.start(owner, Walk { statement, cursor });
}

/// The edge at which a statement's walk begins.
pub fn start_of(alloc: Global, statement: &Statement, schemas: &Schemas) -> R<Edge>
    ensures { IfOk result (λ edge. edge ≡ start_of schemas.now.tables statement.now) }
{
    match schemas.tables.get(statement.table()) {
        None => Ok(Edge::Low),
        Some(schema) => {
            let Span { lo, .. } = reach(alloc, statement, schema)?;
            Ok(lo)
        }
    }
}
