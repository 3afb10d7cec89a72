ghost use Rattle.std.specs.Prelude.{◌≡◌, ◌<◌, ◌+◌, ◌^◌, None, Some, true, false, is_some, IfOk, OnOk, OnErr};
ghost use Rattle.std.specs.Option.{option_copied};
ghost use Rattle.ptc_statement.specs.Fits.{FitsSchemas};
ghost use Rattle.node_model.specs.Txns.{txn_of};
ghost use Rattle.history.specs.Replay.{applied_of};
ghost use Rattle.node_parts.specs.Views.{walk_of, IsUnderWay};
ghost use Rattle.applier.specs.Appliers.{LogFits, statement_behind, next_statement, earlier_open};
ghost use Rattle.applier.specs.Moves.{after_answer, worker_move, visit_move, done_move, commit_move, begin_move, took, nothing_done};
ghost use Rattle.applier.specs.ApplierParts.{moved};

use crate::orders::earlier_open;
use crate::statements::{next_statement, statement_behind};
use crate::turns::Turn;
use crate::workers::Worker;
use node_engine::{Node, Visit};
use node_model::Part;
use ptc_statement::Statement;
use row_types::R;
use statement_log::{Log, Origin};
use std::alloc::Global;

/// The next move of a worker, where this entry is left to take.
#[tactic(auto, using(crate::proofs::MoveLemmas::walks, crate::proofs::MoveLemmas::rests_begun, crate::proofs::MoveLemmas::rests))]
pub fn move_worker(
    alloc: Global,
    worker: &mut Worker,
    left: Option<u64>,
    source: &Log,
    node: &mut Node,
) -> R<Turn>
    requires fits { LogFits node.old.schemas source.now.entries }
    ensures ok { IfOk result (λ turn. moved turn worker.new node.new ≡ worker_move left source.now.entries worker.old node.old) }
    ensures err { OnErr result ((worker.new ≡ worker.old) × (node.new ≡ node.old)) }
{
    if node.is_under_way(worker.owner) {
        return visit_turn(alloc, worker, source, node);
    }
    if node.is_begun(worker.owner) {
        return done_turn(alloc, worker, node);
    }
    begin_turn(alloc, worker, left, source, node)
}

/// A visit of the statement in progress.
#[tactic(auto, using(node_engine::proofs::AskLemmas::under_way_when, crate::proofs::MoveLemmas::next_fits))]
fn visit_turn(alloc: Global, worker: &mut Worker, source: &Log, node: &mut Node) -> R<Turn>
    requires fits { LogFits node.old.schemas source.now.entries }
    requires under_way { is_some (walk_of worker.old.owner.0 node.old.txns) ≡ true }
    ensures ok { IfOk result (λ turn. moved turn worker.new node.new ≡ visit_move (next_statement worker.old.started worker.old.entry source.now.entries) worker.old node.old) }
    ensures err { OnErr result ((worker.new ≡ worker.old) × (node.new ≡ node.old)) }
{
    match next_statement(source, worker.entry, worker.started) {
        None => {
            let answer = node.visit(alloc, worker.owner)?;
            Ok(Turn::Visited(answer))
        }
        Some(next) => {
            let next = next.copy(alloc)?;
            visit_and_start(alloc, worker, next, node)
        }
    }
}

/// A visit and, where it is done with its statement, the start of the next.
#[tactic(auto, using(node_engine::proofs::AskLemmas::under_way_when))]
fn visit_and_start(alloc: Global, worker: &mut Worker, next: Statement, node: &mut Node) -> R<Turn>
    requires fits { FitsSchemas node.old.schemas next }
    requires under_way { is_some (walk_of worker.old.owner.0 node.old.txns) ≡ true }
    requires started { worker.old.started + 1 < 2 ^ 64 }
    ensures ok { IfOk result (λ turn. moved turn worker.new node.new ≡ visit_move (Some next) worker.old node.old) }
    ensures err { OnErr result ((worker.new ≡ worker.old) × (node.new ≡ node.old)) }
{
    let answer = node.visit_and_start(alloc, worker.owner, next)?;
    take_answer(worker, &answer);
    Ok(Turn::Visited(answer))
}

/// What a visit's answer makes of a worker whose entry has a further statement.
fn take_answer(worker: &mut Worker, answer: &Visit)
    requires started { worker.old.started + 1 < 2 ^ 64 }
    ensures { worker.new ≡ after_answer answer.now worker.old }
{
    match answer {
        Visit::Stepped | Visit::Duplicate { .. } => {}
        Visit::Done => worker.started += 1,
        Visit::Waits { .. } | Visit::Deadlock { .. } => {}
    }
}

/// The move of a worker whose statements are done.
fn done_turn(alloc: Global, worker: &mut Worker, node: &mut Node) -> R<Turn>
    requires idle { is_some (walk_of worker.old.owner.0 node.old.txns) ≡ false }
    requires begun { is_some (txn_of worker.old.owner.0 node.old.txns) ≡ true }
    ensures ok { IfOk result (λ turn. moved turn worker.new node.new ≡ done_move worker.old.entry worker.old node.old) }
    ensures err { OnErr result ((worker.new ≡ worker.old) × (node.new ≡ node.old)) }
{
    let applied = node.applied();
    match worker.entry {
        None => Ok(Turn::Nothing { applied }),
        Some(entry) => commit_turn(alloc, worker, entry, earlier_open(applied, entry), node),
    }
}

/// The commit of an entry, if no earlier one is open.
#[tactic(auto, using(node_engine::proofs::AskLemmas::idle_when))]
fn commit_turn(
    alloc: Global,
    worker: &mut Worker,
    entry: u64,
    earlier: Option<u64>,
    node: &mut Node,
) -> R<Turn>
    requires idle { is_some (walk_of worker.old.owner.0 node.old.txns) ≡ false }
    requires begun { is_some (txn_of worker.old.owner.0 node.old.txns) ≡ true }
    ensures ok { IfOk result (λ turn. moved turn worker.new node.new ≡ commit_move earlier entry worker.old node.old) }
    ensures err { OnErr result ((worker.new ≡ worker.old) × (node.new ≡ node.old)) }
{
    if let Some(entry) = earlier {
        return Ok(Turn::OrderWait { entry });
    }
    node.commit(alloc, worker.owner, Origin::Applied(entry))?;
    worker.entry = None;
    worker.started = 0;
    Ok(Turn::Committed { entry })
}

/// The move of a worker without a transaction.
fn begin_turn(
    alloc: Global,
    worker: &mut Worker,
    left: Option<u64>,
    source: &Log,
    node: &mut Node,
) -> R<Turn>
    requires fits { LogFits node.old.schemas source.now.entries }
    requires none { is_some (txn_of worker.old.owner.0 node.old.txns) ≡ false }
    ensures ok { IfOk result (λ turn. moved turn worker.new node.new ≡ begin_move worker.old.entry left source.now.entries worker.old node.old) }
    ensures err { OnErr result ((worker.new ≡ worker.old) × (node.new ≡ node.old)) }
{
    let applied = node.applied();
    match (worker.entry, left) {
        (None, None) => Ok(Turn::Nothing { applied }),
        (None, Some(entry)) => take_entry(alloc, worker, source, entry, node),
        (Some(kept), _) => match earlier_open(applied, kept) {
            None => take_entry(alloc, worker, source, kept, node),
            Some(entry) => Ok(Turn::OrderWait { entry }),
        },
    }
}

/// An entry is taken, and its first statement started, if it has one.
#[tactic(auto, using(node_engine::proofs::AskLemmas::none_of, node_engine::proofs::AskLemmas::begins, node_engine::proofs::AskLemmas::starts, crate::proofs::MoveLemmas::behind_fits))]
fn take_entry(
    alloc: Global,
    worker: &mut Worker,
    source: &Log,
    entry: u64,
    node: &mut Node,
) -> R<Turn>
    requires fits { LogFits node.old.schemas source.now.entries }
    requires none { is_some (txn_of worker.old.owner.0 node.old.txns) ≡ false }
    ensures ok { IfOk result (λ turn. moved turn worker.new node.new ≡ took entry (statement_behind 0 entry source.now.entries) worker.old node.old) }
    ensures err { OnErr result ((worker.new ≡ worker.old) × (node.new ≡ node.old)) }
{
    match statement_behind(source, entry, 0) {
        None => {
            node.begin(alloc, worker.owner, Part::Apply { entry })?;
            worker.started = 0;
        }
        Some(statement) => {
            let statement = statement.copy(alloc)?;
            node.begin_and_start(alloc, worker.owner, Part::Apply { entry }, statement)?;
            worker.started = 1;
        }
    }
    worker.entry = Some(entry);
    Ok(Turn::Took { entry })
}
