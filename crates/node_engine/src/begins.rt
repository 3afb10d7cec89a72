ghost use Rattle.std.specs.Prelude.{◌≡◌, None, OnOk, OnErr};
ghost use Rattle.ptc_statement.specs.Fits.{FitsSchemas};
ghost use Rattle.node_model.specs.Txns.{txn_of};
ghost use Rattle.node_model.specs.Node.{begun};
ghost use Rattle.node_model.specs.Calls.{after_call, Start as StartCall};
ghost use Rattle.node_parts.specs.Kept.{node_view, PartsKept};
ghost use Rattle.node_parts.specs.KeptReads.{ReadsKept};
ghost use Rattle.node_visits.specs.NextStarts.{CanBegin};

use lock_table::Owner;
use node_model::{Part, Walk};
use node_parts::{Parts, begin_parts, start_at, start_of};
use ptc_statement::Statement;
use row_types::R;
use std::alloc::Global;

/// Begins a transaction of an owner that has none, and starts its first statement.
pub fn begin_and_start_parts(
    alloc: Global,
    owner: Owner,
    part: Part,
    statement: Statement,
    parts: &mut Parts,
) -> R<()>
    requires kept { PartsKept parts.old }
    requires reads { ReadsKept parts.old }
    requires none { txn_of owner.0 parts.old.txns ≡ None }
    requires fits { FitsSchemas parts.old.schemas.tables statement }
    ensures ok { OnOk result (node_view parts.new ≡ after_call (StartCall owner statement) (begun owner part (node_view parts.old))) }
    ensures err { OnErr result (node_view parts.new ≡ node_view parts.old) }
    ensures kept { PartsKept parts.new }
    ensures reads { ReadsKept parts.new }
{
    let cursor = start_of(alloc, &statement, &parts.schemas)?;
    let walk = Walk { statement, cursor };
    let begun = begin_parts(alloc, owner, part, parts);
    start_if_begun(owner, begun, walk, parts)
}

/// Starts the walk where the transaction was begun, without memory.
fn start_if_begun(owner: Owner, begun: R<()>, walk: Walk, parts: &mut Parts) -> R<()>
    requires kept { PartsKept parts.old }
    requires reads { ReadsKept parts.old }
    requires ready { OnOk begun (CanBegin walk owner.0 (node_view parts.old)) }
    ensures same { result ≡ begun }
    ensures ok { OnOk begun (node_view parts.new ≡ after_call (StartCall owner walk.statement) (node_view parts.old)) }
    ensures err { OnErr begun (node_view parts.new ≡ node_view parts.old) }
    ensures kept { PartsKept parts.new }
    ensures reads { ReadsKept parts.new }
{
    match begun {
        Err(error) => Err(error),
        Ok(()) => {
            start_at(owner, walk.statement, walk.cursor, parts);
            Ok(())
        }
    }
}
