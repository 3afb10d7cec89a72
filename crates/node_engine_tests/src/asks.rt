//! Calls on a node, and what comes of them.
use crate::answers::{answer, value_at};
use crate::samples::{Sample, statement};
use crate::steps::{Call, Came};
use lock_table::Owner;
use node_builders::{begin, commit, start, start_and_visit, visit, visit_and_start};
use node_engine::{MasterFault, Node, Visit};
use node_model::Part;
use row_types::{Memory, R};
use statement_log::Origin;
use std::alloc::Global;

fn begun(alloc: Global, node: &mut Node, owner: Owner, part: Part) -> R<Came> {
    if begin(alloc, node, owner, part)? {
        return Ok(Came::Begun);
    }
    Ok(Came::Refused)
}

fn started(alloc: Global, node: &mut Node, owner: Owner, sample: Sample) -> R<Came> {
    if start(alloc, node, owner, statement(alloc, sample)?)? {
        return Ok(Came::Started);
    }
    Ok(Came::Refused)
}

fn came_of(visit: &Visit) -> Came {
    match visit {
        Visit::Stepped => Came::Further,
        Visit::Done => Came::Done,
        Visit::Duplicate { .. } => Came::Duplicate,
        Visit::Waits { by } => Came::Waits(by.0),
        Visit::Deadlock { victim, cycle } => Came::Deadlock(victim.0, cycle.len()),
    }
}

fn came_if(visit: Option<Visit>) -> Came {
    match visit {
        None => Came::Refused,
        Some(visit) => came_of(&visit),
    }
}

fn visited(alloc: Global, node: &mut Node, owner: Owner) -> R<Came> {
    let visit = visit(alloc, node, owner)?;
    Ok(came_if(visit))
}

fn start_visited(alloc: Global, node: &mut Node, owner: Owner, sample: Sample) -> R<Came> {
    let visit = start_and_visit(alloc, node, owner, statement(alloc, sample)?)?;
    Ok(came_if(visit))
}

fn visit_started(alloc: Global, node: &mut Node, owner: Owner, sample: Sample) -> R<Came> {
    let visit = visit_and_start(alloc, node, owner, statement(alloc, sample)?)?;
    Ok(came_if(visit))
}

/// Visits until the statement is done, is refused or waits.
pub(crate) fn go(alloc: Global, node: &mut Node, owner: Owner) -> R<Came> {
    for _ in 0..100 {
        let came = visited(alloc, node, owner)?;
        if came != Came::Further {
            return Ok(came);
        }
    }
    Ok(Came::Further)
}

fn run(alloc: Global, node: &mut Node, owner: Owner, sample: Sample) -> R<Came> {
    if started(alloc, node, owner, sample)? != Came::Started {
        return Ok(Came::Refused);
    }
    go(alloc, node, owner)
}

fn committed(alloc: Global, node: &mut Node, owner: Owner, origin: Origin) -> R<Came> {
    match commit(alloc, node, owner, origin)? {
        None => Ok(Came::Unwritten),
        Some(position) => Ok(Came::Written(position)),
    }
}

fn published(alloc: Global, node: &mut Node, chunk: u32) -> R<Came> {
    match node.publish_master(alloc, 0, chunk) {
        Ok(position) => Ok(Came::Written(position)),
        Err(MasterFault::NoCheck) => Ok(Came::NoCheck),
        Err(MasterFault::Memory) => Err(Memory),
    }
}

fn rolled_back(node: &mut Node, owner: Owner) -> Came {
    node.rollback(owner);
    Came::Ended
}

/// Puts a row in where none is.
fn put(alloc: Global, node: &mut Node, owner: Owner, id: i64, v: i64) -> R<Came> {
    if value_at(alloc, node, id)? != Came::Absent {
        return Ok(Came::Done);
    }
    run(alloc, node, owner, Sample::Insert(id, v))
}

/// Commits rows (10, 1), (20, 2), .., so many.
fn fill(alloc: Global, node: &mut Node, owner: Owner, count: u8) -> R<Came> {
    begin(alloc, node, owner, Part::Client)?;
    go(alloc, node, owner)?;
    for number in 1..=count {
        let v = number as i64;
        put(alloc, node, owner, v * 10, v)?;
    }
    committed(alloc, node, owner, Origin::Session(owner.0))
}

/// Makes a call.
pub(crate) fn take(alloc: Global, node: &mut Node, owner: Owner, call: Call) -> R<Came> {
    match call {
        Call::Fill(count) => fill(alloc, node, owner, count),
        Call::Begin => begun(alloc, node, owner, Part::Client),
        Call::Apply(entry) => begun(alloc, node, owner, Part::Apply { entry }),
        Call::Run(sample) => run(alloc, node, owner, sample),
        Call::Start(sample) => started(alloc, node, owner, sample),
        Call::Visit => visited(alloc, node, owner),
        Call::Go => go(alloc, node, owner),
        Call::StartVisit(sample) => start_visited(alloc, node, owner, sample),
        Call::VisitStart(sample) => visit_started(alloc, node, owner, sample),
        Call::Commit => committed(alloc, node, owner, Origin::Session(owner.0)),
        Call::CommitChecks => committed(alloc, node, owner, Origin::Checksum),
        Call::CommitApplied(entry) => committed(alloc, node, owner, Origin::Applied(entry)),
        Call::Rollback => Ok(rolled_back(node, owner)),
        Call::Publish(chunk) => published(alloc, node, chunk),
        Call::Ask(question) => answer(alloc, node, owner, question),
    }
}
