ghost use Rattle.std.specs.Prelude.{◌≡◌, ◌<◌, ◌+◌, ◌^◌, None, Some, false, true, is_some, length, IfOk, OnOk, OnErr};
ghost use Rattle.std.specs.List.{AllByRecursion, slice_get};
ghost use Rattle.ptc_statement.specs.declared.scripts.ScriptLine.{ScriptLine};
ghost use Rattle.ptc_statement.specs.declared.scripts.ScriptStep.TheVariants.{Begin, Commit, Rollback, Run};
ghost use Rattle.ptc_statement.specs.Fits.{FitsSchemas};
ghost use Rattle.node_model.specs.Calls.{after_call, Start as StartCall, Commit as CommitCall};
ghost use Rattle.node_parts.specs.Views.{walk_of};
ghost use Rattle.node_engine.specs.Commits.{commit_answer};
ghost use Rattle.session.specs.Sessions.{RunFits, advanced};
ghost use Rattle.session.specs.Moves.{is_victim, after_answer, visit_move, commit_move, step_move, line_move, begun_move, next_move};
ghost use Rattle.session.specs.SessionParts.{session_view, PartsKept, HasRoom, moved};

use crate::parts::Parts;
use crate::places::{
    advance, enter, enter_statement, leave_committed, leave_rolled_back, make_rooms, refuse,
    roll_back,
};
use crate::stages::{SessionTurn, Stage};
use lock_table::Owner;
use node_engine::{Node, Visit};
use node_model::Part;
use ptc_statement::{ScriptLine, ScriptStep, Statement};
use row_types::R;
use statement_log::Origin;
use std::alloc::Global;

/// The next move of a session.
#[tactic(auto, using(crate::proofs::MoveLemmas::victim_same, crate::proofs::MoveLemmas::stands_same, crate::proofs::MoveLemmas::fits_same))]
pub fn turn_parts(alloc: Global, parts: &mut Parts, node: &mut Node, retries: u32) -> R<SessionTurn>
    requires kept { PartsKept parts.old }
    requires fits { AllByRecursion (λ (line : ScriptLine). RunFits node.old.schemas line.step) parts.old.script.lines }
    ensures ok { IfOk result (λ turn. moved turn parts.new node.new ≡ next_move retries (session_view parts.old) node.old) }
    ensures err { OnErr result ((session_view parts.new ≡ session_view parts.old) × (node.new ≡ node.old)) }
    ensures kept { PartsKept parts.new }
{
    make_rooms(parts)?;
    if is_victim(parts, node) {
        roll_back(parts, retries);
        return Ok(SessionTurn::Victim);
    }
    begun_turn(alloc, parts, node, retries)
}

/// Whether another's turn has rolled its transaction back.
fn is_victim(parts: &Parts, node: &Node) -> bool
    ensures { result ≡ is_victim (session_view parts.now) node.now }
{
    match parts.stage {
        Stage::Between => false,
        Stage::Within | Stage::Alone => !node.is_begun(parts.owner),
    }
}

/// The move of a session whose transaction, if it has one, stands.
fn begun_turn(alloc: Global, parts: &mut Parts, node: &mut Node, retries: u32) -> R<SessionTurn>
    requires kept { PartsKept parts.old }
    requires room { HasRoom parts.old }
    requires fits { AllByRecursion (λ (line : ScriptLine). RunFits node.old.schemas line.step) parts.old.script.lines }
    ensures ok { IfOk result (λ turn. moved turn parts.new node.new ≡ begun_move retries (walk_of parts.old.owner.0 node.old.txns) (session_view parts.old) node.old) }
    ensures err { OnErr result ((session_view parts.new ≡ session_view parts.old) × (node.new ≡ node.old)) }
    ensures kept { PartsKept parts.new }
{
    if node.is_under_way(parts.owner) {
        return visit_turn(alloc, parts, node, retries);
    }
    match parts.stage {
        Stage::Alone => commit_turn(alloc, parts, node),
        Stage::Between | Stage::Within => line_turn(alloc, parts, node),
    }
}

/// A visit of the statement in progress.
#[tactic(auto, using(node_engine::proofs::AskLemmas::under_way_when))]
fn visit_turn(alloc: Global, parts: &mut Parts, node: &mut Node, retries: u32) -> R<SessionTurn>
    requires kept { PartsKept parts.old }
    requires room { HasRoom parts.old }
    requires under_way { is_some (walk_of parts.old.owner.0 node.old.txns) ≡ true }
    ensures ok { IfOk result (λ turn. moved turn parts.new node.new ≡ visit_move retries (slice_get parts.old.script.lines parts.old.next) (session_view parts.old) node.old) }
    ensures err { OnErr result ((session_view parts.new ≡ session_view parts.old) × (node.new ≡ node.old)) }
    ensures kept { PartsKept parts.new }
{
    let Some(line) = parts.script.lines.as_slice().get(parts.next) else {
        return Ok(SessionTurn::Finished);
    };
    let number = line.line;
    let answer = node.visit(alloc, parts.owner)?;
    take_answer(parts, &answer, number, retries);
    Ok(SessionTurn::Visited(answer))
}

/// What a visit's answer makes of a session.
fn take_answer(parts: &mut Parts, answer: &Visit, line: u32, retries: u32)
    requires kept { PartsKept parts.old }
    requires room { HasRoom parts.old }
    requires line { parts.old.next < length parts.old.script.lines }
    ensures view { session_view parts.new ≡ after_answer retries answer.now line (session_view parts.old) }
    ensures kept { PartsKept parts.new }
{
    match answer {
        Visit::Stepped | Visit::Waits { .. } => {}
        Visit::Done => advance(parts),
        Visit::Duplicate { .. } => refuse(parts, line),
        Visit::Deadlock { victim, .. } => {
            if victim.0 == parts.owner.0 {
                roll_back(parts, retries);
            }
        }
    }
}

/// The commit of a lone statement that is done or was refused.
fn commit_turn(alloc: Global, parts: &mut Parts, node: &mut Node) -> R<SessionTurn>
    requires kept { PartsKept parts.old }
    requires room { HasRoom parts.old }
    requires idle { is_some (walk_of parts.old.owner.0 node.old.txns) ≡ false }
    ensures ok { IfOk result (λ turn. moved turn parts.new node.new ≡ commit_move (session_view parts.old) node.old) }
    ensures err { OnErr result ((session_view parts.new ≡ session_view parts.old) × (node.new ≡ node.old)) }
    ensures kept { PartsKept parts.new }
{
    let position = commit_on(alloc, parts.owner, &parts.origin, node)?;
    leave_committed(parts);
    Ok(SessionTurn::Committed { position })
}

/// The commit of an owner's transaction, if it has one.
#[tactic(auto, using(node_engine::proofs::AskLemmas::idle_when, crate::proofs::NodeLemmas::no_answer, crate::proofs::NodeLemmas::no_commit))]
fn commit_on(alloc: Global, owner: Owner, origin: &Origin, node: &mut Node) -> R<Option<u64>>
    requires idle { is_some (walk_of owner.0 node.old.txns) ≡ false }
    ensures answer { IfOk result (λ position. position ≡ commit_answer owner.0 origin.now node.old) }
    ensures ok { OnOk result (node.new ≡ after_call (CommitCall owner origin.now) node.old) }
    ensures err { OnErr result (node.new ≡ node.old) }
{
    if !node.is_begun(owner) {
        return Ok(None);
    }
    let origin = origin.copy(alloc)?;
    let position = node.commit(alloc, owner, origin)?;
    Ok(position)
}

/// The move that the next line says.
#[tactic(auto, using(crate::proofs::MoveLemmas::line_fits))]
fn line_turn(alloc: Global, parts: &mut Parts, node: &mut Node) -> R<SessionTurn>
    requires kept { PartsKept parts.old }
    requires room { HasRoom parts.old }
    requires fits { AllByRecursion (λ (line : ScriptLine). RunFits node.old.schemas line.step) parts.old.script.lines }
    requires idle { is_some (walk_of parts.old.owner.0 node.old.txns) ≡ false }
    ensures ok { IfOk result (λ turn. moved turn parts.new node.new ≡ line_move (slice_get parts.old.script.lines parts.old.next) (session_view parts.old) node.old) }
    ensures err { OnErr result ((session_view parts.new ≡ session_view parts.old) × (node.new ≡ node.old)) }
    ensures kept { PartsKept parts.new }
{
    let Some(line) = parts.script.lines.as_slice().get(parts.next) else {
        return Ok(SessionTurn::Finished);
    };
    match &line.step {
        ScriptStep::Begin => begin_turn(alloc, parts, node),
        ScriptStep::Commit => end_turn(alloc, parts, node),
        ScriptStep::Rollback => Ok(roll_back_turn(parts, node)),
        ScriptStep::Run(statement) => {
            let statement = statement.copy(alloc)?;
            start_turn(alloc, parts, node, statement)
        }
    }
}

/// BEGIN.
#[tactic(auto, using(node_engine::proofs::AskLemmas::none_of, node_engine::proofs::AskLemmas::begins, node_engine::proofs::AskLemmas::begins_not))]
fn begin_turn(alloc: Global, parts: &mut Parts, node: &mut Node) -> R<SessionTurn>
    requires kept { PartsKept parts.old }
    requires line { parts.old.next < length parts.old.script.lines }
    ensures ok { IfOk result (λ turn. moved turn parts.new node.new ≡ step_move Begin (session_view parts.old) node.old) }
    ensures err { OnErr result ((session_view parts.new ≡ session_view parts.old) × (node.new ≡ node.old)) }
    ensures kept { PartsKept parts.new }
{
    if !node.is_begun(parts.owner) {
        node.begin(alloc, parts.owner, Part::Client)?;
    }
    enter(parts, Stage::Within);
    advance(parts);
    Ok(SessionTurn::Began)
}

/// COMMIT.
fn end_turn(alloc: Global, parts: &mut Parts, node: &mut Node) -> R<SessionTurn>
    requires kept { PartsKept parts.old }
    requires room { HasRoom parts.old }
    requires line { parts.old.next < length parts.old.script.lines }
    requires idle { is_some (walk_of parts.old.owner.0 node.old.txns) ≡ false }
    ensures ok { IfOk result (λ turn. moved turn parts.new node.new ≡ step_move Commit (session_view parts.old) node.old) }
    ensures err { OnErr result ((session_view parts.new ≡ session_view parts.old) × (node.new ≡ node.old)) }
    ensures kept { PartsKept parts.new }
{
    let position = commit_on(alloc, parts.owner, &parts.origin, node)?;
    advance(parts);
    leave_committed(parts);
    Ok(SessionTurn::Committed { position })
}

/// ROLLBACK. It takes no memory.
fn roll_back_turn(parts: &mut Parts, node: &mut Node) -> SessionTurn
    requires kept { PartsKept parts.old }
    requires room { HasRoom parts.old }
    requires line { parts.old.next < length parts.old.script.lines }
    ensures ok { moved result parts.new node.new ≡ step_move Rollback (session_view parts.old) node.old }
    ensures kept { PartsKept parts.new }
{
    node.rollback(parts.owner);
    advance(parts);
    leave_rolled_back(parts);
    SessionTurn::RolledBack
}

/// The start of a statement, in a transaction of its own where none is open.
#[tactic(auto, using(node_engine::proofs::AskLemmas::none_of, node_engine::proofs::AskLemmas::idle_when, node_engine::proofs::AskLemmas::starts, node_engine::proofs::AskLemmas::starts_begun))]
fn start_turn(
    alloc: Global,
    parts: &mut Parts,
    node: &mut Node,
    statement: Statement,
) -> R<SessionTurn>
    requires kept { PartsKept parts.old }
    requires line { parts.old.next < length parts.old.script.lines }
    requires fits { FitsSchemas node.old.schemas statement }
    requires idle { is_some (walk_of parts.old.owner.0 node.old.txns) ≡ false }
    ensures ok { IfOk result (λ turn. moved turn parts.new node.new ≡ step_move (Run statement) (session_view parts.old) node.old) }
    ensures err { OnErr result ((session_view parts.new ≡ session_view parts.old) × (node.new ≡ node.old)) }
    ensures kept { PartsKept parts.new }
{
    if node.is_begun(parts.owner) {
        node.start(alloc, parts.owner, statement)?;
    } else {
        node.begin_and_start(alloc, parts.owner, Part::Client, statement)?;
    }
    enter_statement(parts);
    Ok(SessionTurn::Started)
}
