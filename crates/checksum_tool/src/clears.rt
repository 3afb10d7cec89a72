ghost use Rattle.std.specs.Prelude.{◌≡◌, ◌<◌, None, Some, length, [], ◌∷◌, IfOk, OnOk, OnErr};
ghost use Rattle.node_model.specs.Txns.{txn_of};
ghost use Rattle.node_model.specs.Node.{with_entries, ended};
ghost use Rattle.checksum_tool.specs.Tools.{tool_owner};
ghost use Rattle.checksum_tool.specs.Clears.{begun_txn, logged_clear};
ghost use Rattle.checksum_tool.specs.Moves.{next_position, clear_entry};

use crate::moves::TOOL;
use node_engine::Node;
use node_model::Part;
use ptc_statement::Statement;
use row_types::R;
use statement_log::Origin;
use std::alloc::Global;

/// Logs that a table's earlier checksums are forgotten, and answers the entry's position.
#[tactic(auto, using(crate::proofs::ClearLemmas::begun_there, crate::proofs::ClearLemmas::taken_back, crate::proofs::ClearLemmas::cleared_at_once))]
pub fn log_clear(alloc: Global, table: u32, node: &mut Node) -> R<u64>
    requires none { txn_of tool_owner.0 node.old.txns ≡ None }
    requires there { table < length node.old.schemas }
    ensures position { IfOk result (λ position. position ≡ next_position node.old) }
    ensures ok { OnOk result (node.new ≡ with_entries (clear_entry table ∷ []) node.old) }
    ensures err { OnErr result (node.new ≡ node.old) }
{
    // Who has no transaction holds nothing, so that a rollback leaves the node as it was.
    node.keeps_laws();
    node.begin(alloc, TOOL, Part::Client)?;
    match clear_begun(alloc, table, node) {
        Ok(position) => Ok(position),
        Err(error) => {
            node.rollback(TOOL);
            Err(error)
        }
    }
}

/// Logs it in a transaction that was begun for it.
#[tactic(auto, using(crate::proofs::NodeLemmas::clear_fits, crate::proofs::ClearLemmas::idle_there, crate::proofs::ClearLemmas::cleared_idle, crate::proofs::ClearLemmas::cleared_ended, crate::proofs::ClearLemmas::cleared_answer))]
fn clear_begun(alloc: Global, table: u32, node: &mut Node) -> R<u64>
    requires begun { txn_of tool_owner.0 node.old.txns ≡ Some begun_txn }
    requires there { table < length node.old.schemas }
    ensures position { IfOk result (λ position. position ≡ next_position node.old) }
    ensures ok { OnOk result (node.new ≡ logged_clear table node.old) }
    ensures err { OnErr result (ended tool_owner.0 node.new ≡ ended tool_owner.0 node.old) }
{
    node.start_and_visit(alloc, TOOL, Statement::ClearChecks { table })?;
    match node.commit(alloc, TOOL, Origin::Checksum)? {
        Some(position) => Ok(position),
        None => unreachable!(),
    }
}
