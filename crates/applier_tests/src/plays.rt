//! Steps played one after the other.
ghost use Rattle.std.specs.Prelude.{IfOk};
ghost use Rattle.applier_tests.specs.Replicas.{ReplicaFits};

use crate::deeds::yes_or_no;
use crate::others::act;
use crate::replicas::{Replica, entry_of, next_turn, replica_of};
use crate::steps::{Call, Did, Question, Sample, Step};
use row_types::R;
use std::alloc::Global;

fn asked(replica: &Replica, question: Question) -> Did {
    match question {
        Question::IsStopped => yes_or_no(replica.applier.is_stopped()),
        Question::Entry(worker) => entry_of(&replica.applier, worker),
        Question::Applied => Did::Is(replica.node.applied()),
        Question::Written => Did::Is(replica.node.history().len()),
    }
}

fn taken(alloc: Global, replica: &mut Replica, worker: u32) -> R<Did>
    requires { ReplicaFits replica.old.node.schemas replica.old.source.entries }
    ensures { ReplicaFits replica.new.node.schemas replica.new.source.entries }
{
    next_turn(
        alloc,
        &mut replica.applier,
        worker,
        &replica.source,
        &mut replica.node,
    )
}

#[tactic(auto, using(crate::proofs::ReplicaLemmas::goes_on))]
fn take(alloc: Global, replica: &mut Replica, call: Call) -> R<Did>
    requires { ReplicaFits replica.old.node.schemas replica.old.source.entries }
    ensures { ReplicaFits replica.new.node.schemas replica.new.source.entries }
{
    match call {
        Call::Turn(worker) => taken(alloc, replica, worker),
        Call::Stop => Ok(yes_or_no(replica.applier.stop(&mut replica.node))),
        Call::Start => Ok(yes_or_no(replica.applier.start())),
        Call::Ask(question) => Ok(asked(replica, question)),
        Call::Other(owner, deed) => act(alloc, &mut replica.node, owner, deed),
    }
}

/// Makes a call, twice where memory is wanting: a refusal leaves all as it was, so the second time all comes as
/// it would have come at once.
fn take_again(alloc: Global, replica: &mut Replica, call: Call) -> R<Did>
    requires { ReplicaFits replica.old.node.schemas replica.old.source.entries }
    ensures { ReplicaFits replica.new.node.schemas replica.new.source.entries }
{
    match take(alloc, replica, call) {
        Ok(did) => Ok(did),
        Err(_) => take(alloc, replica, call),
    }
}

/// Makes the calls one after the other: how many came to what is wanted before the first that did not.
fn play_on(alloc: Global, replica: &mut Replica, steps: &[Step]) -> R<usize>
    requires { ReplicaFits replica.old.node.schemas replica.old.source.entries }
    ensures { ReplicaFits replica.new.node.schemas replica.new.source.entries }
{
    for i in 0..steps.len() {
        let (call, wanted) = steps[i];
        if take_again(alloc, replica, call)? != wanted {
            return Ok(i);
        }
    }
    Ok(steps.len())
}

fn replica(alloc: Global, entries: &[&[Sample]]) -> R<Replica>
    ensures { IfOk result (λ replica. ReplicaFits replica.node.schemas replica.source.entries) }
{
    match replica_of(alloc, entries) {
        Ok(replica) => Ok(replica),
        Err(_) => replica_of(alloc, entries),
    }
}

/// Plays steps on a replica without rows, whose source has a log of these entries.
pub(crate) fn play(alloc: Global, entries: &[&[Sample]], steps: &[Step]) -> R<usize> {
    let mut replica = replica(alloc, entries)?;
    play_on(alloc, &mut replica, steps)
}
