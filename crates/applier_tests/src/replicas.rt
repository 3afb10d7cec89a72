//! A replica's node, its applier and the log of its source.
ghost use Rattle.std.specs.Prelude.{◌≡◌, IfOk};
ghost use Rattle.applier_tests.specs.Replicas.{ReplicaFits};

use crate::deeds::{deed_of, number};
use crate::logs::log_of;
use crate::steps::{Did, Sample};
use applier::Applier;
use node_builders::empty_node;
use node_engine::Node;
use row_types::R;
use statement_log::Log;
use std::alloc::Global;

#[derive(Drop)]
pub(crate) struct Replica {
    pub(crate) node: Node,
    pub(crate) applier: Applier,
    pub(crate) source: Log,
}

/// A replica without rows and with two workers, whose source has this log.
pub(crate) fn replica_of(alloc: Global, entries: &[&[Sample]]) -> R<Replica>
    ensures { IfOk result (λ replica. ReplicaFits replica.node.schemas replica.source.entries) }
{
    let node = empty_node(alloc)?;
    let source = log_of(alloc, entries)?;
    let applier = Applier::new(alloc, 1, 2)?;
    Ok(Replica {
        node,
        applier,
        source,
    })
}

/// What a worker does in its next turn; an applier has workers from 1 on.
#[tactic(auto, using(crate::proofs::ReplicaLemmas::fit_here))]
pub(crate) fn next_turn(
    alloc: Global,
    applier: &mut Applier,
    worker: u32,
    source: &Log,
    node: &mut Node,
) -> R<Did>
    requires { ReplicaFits node.old.schemas source.now.entries }
    ensures { node.new.schemas ≡ node.old.schemas }
{
    if worker < 1 || worker as usize > applier.workers() {
        return Ok(Did::Refused);
    }
    let turn = applier.turn(alloc, worker, source, node)?;
    Ok(deed_of(&turn))
}

/// The entry that a worker has.
pub(crate) fn entry_of(applier: &Applier, worker: u32) -> Did {
    if worker < 1 || worker as usize > applier.workers() {
        return Did::Refused;
    }
    number(applier.entry(worker))
}
