ghost use Rattle.std.specs.Prelude.{◌≡◌};
ghost use Rattle.node_parts.specs.Views.{IsIdle};
ghost use Rattle.node_builders.specs.Asked.{When, CanStart, CanGoOn};

use crate::statement_fits::fits;
use lock_table::Owner;
use node_engine::{Node, Visit};
use node_model::Part;
use ptc_statement::Statement;
use row_types::R;
use statement_log::Origin;
use std::alloc::Global;

// No call changes the schemas of the node.

/// Begins a transaction where the owner has none: whether it had none.
#[tactic(auto, using(node_engine::proofs::AskLemmas::not_begun, crate::proofs::NodeLemmas::begun_same))]
pub fn begin(alloc: Global, node: &mut Node, owner: Owner, part: Part) -> R<bool>
    ensures schemas { node.new.schemas ≡ node.old.schemas }
{
    if node.is_begun(owner) {
        return Ok(false);
    }
    node.begin(alloc, owner, part)?;
    Ok(true)
}

/// Starts a statement where the owner has a transaction and none in progress, and where `fits` says that
/// it fits: whether that was so.
#[tactic(auto, using(crate::proofs::NodeLemmas::call_same))]
pub fn start(alloc: Global, node: &mut Node, owner: Owner, statement: Statement) -> R<bool>
    ensures schemas { node.new.schemas ≡ node.old.schemas }
{
    if !can_start(node, owner, &statement) {
        return Ok(false);
    }
    node.start(alloc, owner, statement)?;
    Ok(true)
}

fn can_start(node: &Node, owner: Owner, statement: &Statement) -> bool
    ensures { When result (CanStart owner.0 node.now statement.now) }
{
    if !is_idle(node, owner) {
        return false;
    }
    fits_node(node, owner, statement)
}

fn fits_node(node: &Node, _owner: Owner, statement: &Statement) -> bool
    requires { IsIdle _owner.0 node.now }
    ensures { When result (CanStart _owner.0 node.now statement.now) }
{
    if fits(node.schemas(), statement) {
        return true;
    }
    false
}

#[tactic(auto, using(node_engine::proofs::AskLemmas::idle_when))]
fn is_idle(node: &Node, owner: Owner) -> bool
    ensures { When result (IsIdle owner.0 node.now) }
{
    if !node.is_begun(owner) {
        return false;
    }
    if node.is_under_way(owner) {
        return false;
    }
    true
}

/// The next visit of an owner, none where it has no statement in progress.
#[tactic(auto, using(node_engine::proofs::AskLemmas::under_way_when, crate::proofs::NodeLemmas::call_same))]
pub fn visit(alloc: Global, node: &mut Node, owner: Owner) -> R<Option<Visit>>
    ensures schemas { node.new.schemas ≡ node.old.schemas }
{
    if !node.is_under_way(owner) {
        return Ok(None);
    }
    let answer = node.visit(alloc, owner)?;
    Ok(Some(answer))
}

/// Starts a statement and makes its first visit; none where `start` would not start it.
#[tactic(auto, using(crate::proofs::NodeLemmas::start_visit_same))]
pub fn start_and_visit(
    alloc: Global,
    node: &mut Node,
    owner: Owner,
    statement: Statement,
) -> R<Option<Visit>>
    ensures schemas { node.new.schemas ≡ node.old.schemas }
{
    if !can_start(node, owner, &statement) {
        return Ok(None);
    }
    let answer = node.start_and_visit(alloc, owner, statement)?;
    Ok(Some(answer))
}

/// The next visit of an owner and, where this is done with its statement, the start of a further one; none
/// where it has no statement in progress, or `fits` does not say that the further one fits.
#[tactic(auto, using(crate::proofs::NodeLemmas::visit_start_same))]
pub fn visit_and_start(
    alloc: Global,
    node: &mut Node,
    owner: Owner,
    next: Statement,
) -> R<Option<Visit>>
    ensures schemas { node.new.schemas ≡ node.old.schemas }
{
    if !can_go_on(node, owner, &next) {
        return Ok(None);
    }
    let answer = node.visit_and_start(alloc, owner, next)?;
    Ok(Some(answer))
}

#[tactic(auto, using(node_engine::proofs::AskLemmas::under_way_when))]
fn can_go_on(node: &Node, owner: Owner, next: &Statement) -> bool
    ensures { When result (CanGoOn owner.0 node.now next.now) }
{
    if !node.is_under_way(owner) {
        return false;
    }
    if fits(node.schemas(), next) {
        return true;
    }
    false
}

/// The commit of an owner's transaction, and the position of the entry; none where none is written, and
/// where the owner has no transaction or a statement in progress.
#[tactic(auto, using(crate::proofs::NodeLemmas::call_same))]
pub fn commit(alloc: Global, node: &mut Node, owner: Owner, origin: Origin) -> R<Option<u64>>
    ensures schemas { node.new.schemas ≡ node.old.schemas }
{
    if !is_idle(node, owner) {
        return Ok(None);
    }
    node.commit(alloc, owner, origin)
}
