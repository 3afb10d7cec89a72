//! Another owner's transaction on a replica.
ghost use Rattle.std.specs.Prelude.{◌≡◌};

use crate::deeds::visited;
use crate::logs::statement;
use crate::steps::{Act, Did, Sample};
use lock_table::Owner;
use node_builders::{begin, start, start_and_visit};
use node_engine::Node;
use node_model::Part;
use row_types::R;
use std::alloc::Global;

fn begun(alloc: Global, node: &mut Node, owner: Owner, part: Part) -> R<Did>
    ensures { node.new.schemas ≡ node.old.schemas }
{
    if begin(alloc, node, owner, part)? {
        return Ok(Did::Begun);
    }
    Ok(Did::Refused)
}

fn started(alloc: Global, node: &mut Node, owner: Owner, sample: Sample) -> R<Did>
    ensures { node.new.schemas ≡ node.old.schemas }
{
    if start(alloc, node, owner, statement(alloc, sample)?)? {
        return Ok(Did::Started);
    }
    Ok(Did::Refused)
}

fn run(alloc: Global, node: &mut Node, owner: Owner, sample: Sample) -> R<Did>
    ensures { node.new.schemas ≡ node.old.schemas }
{
    match start_and_visit(alloc, node, owner, statement(alloc, sample)?)? {
        None => Ok(Did::Refused),
        Some(visit) => Ok(visited(&visit)),
    }
}

#[tactic(auto, using(crate::proofs::ReplicaLemmas::ended_same))]
fn rolled_back(node: &mut Node, owner: Owner) -> Did
    ensures { node.new.schemas ≡ node.old.schemas }
{
    node.rollback(owner);
    Did::Ended
}

/// What an owner does, and what comes of it.
pub(crate) fn act(alloc: Global, node: &mut Node, owner: u32, act: Act) -> R<Did>
    ensures { node.new.schemas ≡ node.old.schemas }
{
    let owner = Owner(owner);
    match act {
        Act::Begin => begun(alloc, node, owner, Part::Client),
        Act::Apply(entry) => begun(alloc, node, owner, Part::Apply { entry }),
        Act::Start(sample) => started(alloc, node, owner, sample),
        Act::Run(sample) => run(alloc, node, owner, sample),
        Act::Rollback => Ok(rolled_back(node, owner)),
    }
}
