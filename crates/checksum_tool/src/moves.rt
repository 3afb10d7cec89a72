ghost use Rattle.std.specs.Prelude.{◌≡◌, true, false, is_some, length, IfOk, OnErr};
ghost use Rattle.node_model.specs.Txns.{txn_of};
ghost use Rattle.node_parts.specs.Views.{walk_of};
ghost use Rattle.checksum_table.specs.Checks.{check_at};
ghost use Rattle.history.specs.Replay.{fold};
ghost use Rattle.checksum_tool.specs.Tools.{tool_owner};
ghost use Rattle.checksum_tool.specs.Moves.{after_answer, clear_move, choose_move, visit_move, commit_move, master_move, idle_move, rested_move, begun_move, next_move};
ghost use Rattle.checksum_tool.specs.ToolParts.{tool_view, PartsKept, moved};

use crate::clears::log_clear;
use crate::parts::Parts;
use crate::phases::{ToolPhase, ToolTurn};
use crate::places::{leave_chunk, roll_back};
use crate::spans::next_span;
use lock_table::Owner;
use node_engine::{MasterFault, Node, Visit};
use node_model::Part;
use ptc_statement::Statement;
use row_types::{Memory, R};
use statement_log::Origin;
use std::alloc::Global;

/// As whom the tool holds locks.
pub const TOOL: Owner = Owner(100);

/// The next move of the tool.
pub fn turn_parts(alloc: Global, parts: &mut Parts, node: &mut Node) -> R<ToolTurn>
    requires kept { PartsKept parts.old }
    requires tables { parts.old.tables ≡ length node.old.schemas }
    ensures ok { IfOk result (λ turn. moved turn parts.new node.new ≡ next_move (tool_view parts.old) node.old) }
    ensures err { OnErr result ((tool_view parts.new ≡ tool_view parts.old) × (node.new ≡ node.old)) }
    ensures kept { PartsKept parts.new }
{
    match parts.phase {
        ToolPhase::RetriesUsed { rollbacks } => Ok(ToolTurn::RetriesUsed {
            chunk: parts.chunk,
            rollbacks,
        }),
        ToolPhase::Finished => Ok(ToolTurn::Finished),
        ToolPhase::Clear => begun_turn(alloc, parts, node),
        ToolPhase::Choose => begun_turn(alloc, parts, node),
        ToolPhase::Walk => begun_turn(alloc, parts, node),
        ToolPhase::Master => begun_turn(alloc, parts, node),
    }
}

/// The move of a tool that is not at its end.
#[tactic(auto, using(crate::proofs::MoveLemmas::walks, crate::proofs::MoveLemmas::commits, crate::proofs::MoveLemmas::idles))]
fn begun_turn(alloc: Global, parts: &mut Parts, node: &mut Node) -> R<ToolTurn>
    requires kept { PartsKept parts.old }
    requires tables { parts.old.tables ≡ length node.old.schemas }
    ensures ok { IfOk result (λ turn. moved turn parts.new node.new ≡ begun_move (walk_of tool_owner.0 node.old.txns) (tool_view parts.old) node.old) }
    ensures err { OnErr result ((tool_view parts.new ≡ tool_view parts.old) × (node.new ≡ node.old)) }
    ensures kept { PartsKept parts.new }
{
    if node.is_under_way(TOOL) {
        return visit_turn(alloc, parts, node);
    }
    if node.is_begun(TOOL) {
        return commit_turn(alloc, parts, node);
    }
    idle_turn(alloc, parts, node)
}

/// A visit of the CHECKSUM in progress.
#[tactic(auto, using(node_engine::proofs::AskLemmas::under_way_when))]
fn visit_turn(alloc: Global, parts: &mut Parts, node: &mut Node) -> R<ToolTurn>
    requires kept { PartsKept parts.old }
    requires under_way { is_some (walk_of tool_owner.0 node.old.txns) ≡ true }
    ensures ok { IfOk result (λ turn. moved turn parts.new node.new ≡ visit_move (tool_view parts.old) node.old) }
    ensures err { OnErr result ((tool_view parts.new ≡ tool_view parts.old) × (node.new ≡ node.old)) }
    ensures kept { PartsKept parts.new }
{
    let answer = node.visit(alloc, TOOL)?;
    take_answer(parts, &answer);
    Ok(ToolTurn::Visited(answer))
}

/// What a visit's answer makes of the tool.
fn take_answer(parts: &mut Parts, answer: &Visit)
    requires kept { PartsKept parts.old }
    ensures view { tool_view parts.new ≡ after_answer answer.now (tool_view parts.old) }
    ensures kept { PartsKept parts.new }
{
    match answer {
        Visit::Stepped | Visit::Done => {}
        Visit::Duplicate { .. } | Visit::Waits { .. } => {}
        Visit::Deadlock { victim, .. } => {
            if victim.0 == TOOL.0 {
                roll_back(parts);
            }
        }
    }
}

/// The commit of a CHECKSUM that is done.
#[tactic(auto, using(node_engine::proofs::AskLemmas::idle_when, crate::proofs::NodeLemmas::check_written))]
fn commit_turn(alloc: Global, parts: &mut Parts, node: &mut Node) -> R<ToolTurn>
    requires kept { PartsKept parts.old }
    requires begun { is_some (txn_of tool_owner.0 node.old.txns) ≡ true }
    requires rests { is_some (walk_of tool_owner.0 node.old.txns) ≡ false }
    ensures ok { IfOk result (λ turn. moved turn parts.new node.new ≡ commit_move (tool_view parts.old) node.old) }
    ensures err { OnErr result ((tool_view parts.new ≡ tool_view parts.old) × (node.new ≡ node.old)) }
    ensures kept { PartsKept parts.new }
{
    let Some(position) = node.commit(alloc, TOOL, Origin::Checksum)? else {
        unreachable!()
    };
    parts.phase = ToolPhase::Master;
    Ok(ToolTurn::Committed { position })
}

/// The move of a tool without a transaction.
fn idle_turn(alloc: Global, parts: &mut Parts, node: &mut Node) -> R<ToolTurn>
    requires kept { PartsKept parts.old }
    requires tables { parts.old.tables ≡ length node.old.schemas }
    requires none { is_some (txn_of tool_owner.0 node.old.txns) ≡ false }
    ensures ok { IfOk result (λ turn. moved turn parts.new node.new ≡ idle_move parts.old.phase (tool_view parts.old) node.old) }
    ensures err { OnErr result ((tool_view parts.new ≡ tool_view parts.old) × (node.new ≡ node.old)) }
    ensures kept { PartsKept parts.new }
{
    match parts.phase {
        ToolPhase::Clear => clear_turn(alloc, parts, node),
        ToolPhase::Choose => choose_turn(alloc, parts, node),
        ToolPhase::Walk => {
            roll_back(parts);
            Ok(ToolTurn::Victim)
        }
        ToolPhase::Master => master_turn(alloc, parts, node),
        ToolPhase::RetriesUsed { rollbacks } => Ok(ToolTurn::RetriesUsed {
            chunk: parts.chunk,
            rollbacks,
        }),
        ToolPhase::Finished => Ok(ToolTurn::Finished),
    }
}

/// CLEARCHECKS of the table.
#[tactic(auto, using(node_engine::proofs::AskLemmas::none_of))]
fn clear_turn(alloc: Global, parts: &mut Parts, node: &mut Node) -> R<ToolTurn>
    requires kept { PartsKept parts.old }
    requires tables { parts.old.tables ≡ length node.old.schemas }
    requires none { is_some (txn_of tool_owner.0 node.old.txns) ≡ false }
    ensures ok { IfOk result (λ turn. moved turn parts.new node.new ≡ clear_move (tool_view parts.old) node.old) }
    ensures err { OnErr result ((tool_view parts.new ≡ tool_view parts.old) × (node.new ≡ node.old)) }
    ensures kept { PartsKept parts.new }
{
    let position = log_clear(alloc, parts.table, node)?;
    parts.phase = ToolPhase::Choose;
    Ok(ToolTurn::Cleared { position })
}

/// The start of the CHECKSUM of the next chunk.
#[tactic(auto, using(node_engine::proofs::AskLemmas::none_of, node_engine::proofs::AskLemmas::starts, crate::proofs::NodeLemmas::check_fits))]
fn choose_turn(alloc: Global, parts: &mut Parts, node: &mut Node) -> R<ToolTurn>
    requires kept { PartsKept parts.old }
    requires tables { parts.old.tables ≡ length node.old.schemas }
    requires none { is_some (txn_of tool_owner.0 node.old.txns) ≡ false }
    ensures ok { IfOk result (λ turn. moved turn parts.new node.new ≡ choose_move (tool_view parts.old) node.old) }
    ensures err { OnErr result ((tool_view parts.new ≡ tool_view parts.old) × (node.new ≡ node.old)) }
    ensures kept { PartsKept parts.new }
{
    let span = next_span(alloc, &parts.after)?;
    let until = span.hi.copy(alloc)?;
    let check = Statement::Check {
        table: parts.table,
        chunk: parts.chunk,
        span,
        kind: parts.kind,
    };
    node.begin_and_start(alloc, TOOL, Part::Client, check)?;
    parts.phase = ToolPhase::Walk;
    parts.until = until;
    Ok(ToolTurn::Chose {
        table: parts.table,
        chunk: parts.chunk,
    })
}

/// The publication of the source's own checksum; where its check row is gone the chunk is chosen again.
#[tactic(auto, using(crate::proofs::NodeLemmas::published_turn, crate::proofs::NodeLemmas::chosen_turn))]
fn master_turn(alloc: Global, parts: &mut Parts, node: &mut Node) -> R<ToolTurn>
    requires kept { PartsKept parts.old }
    requires tables { parts.old.tables ≡ length node.old.schemas }
    requires none { is_some (txn_of tool_owner.0 node.old.txns) ≡ false }
    ensures ok { IfOk result (λ turn. moved turn parts.new node.new ≡ master_move (check_at parts.old.table parts.old.chunk (fold node.old.schemas node.old.start node.old.history).checks) (tool_view parts.old) node.old) }
    ensures err { OnErr result ((tool_view parts.new ≡ tool_view parts.old) × (node.new ≡ node.old)) }
    ensures kept { PartsKept parts.new }
{
    if parts.chunk == u32::MAX {
        return Err(Memory);
    }
    match node.publish_master(alloc, parts.table, parts.chunk) {
        Ok(position) => {
            leave_chunk(parts, position);
            Ok(ToolTurn::Mastered { position })
        }
        Err(MasterFault::NoCheck) => choose_turn(alloc, parts, node),
        Err(MasterFault::Memory) => Err(Memory),
    }
}
