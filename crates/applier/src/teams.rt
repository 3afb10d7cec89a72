ghost use Rattle.std.specs.Prelude.{◌≡◌, ◌<◌, ◌≤◌, ◌^◌, IfOk, OnOk, OnErr, length, map};
ghost use Rattle.std.specs.List.{slice_get};
ghost use Rattle.applier.specs.Appliers.{LogFits, new_workers, without_entry};
ghost use Rattle.applier.specs.Moves.{turned_at, all_ended};
ghost use Rattle.applier.specs.TeamParts.{turned_by, emptied_at};

use crate::moves::move_worker;
use crate::orders::entry_left;
use crate::turns::Turn;
use crate::workers::Worker;
use lock_table::Owner;
use node_engine::Node;
use row_types::R;
use statement_log::Log;
use std::alloc::Global;

/// So many workers, without entries.
pub fn new_workers(alloc: Global, count: u32) -> R<Vec<Worker>>
    requires { count < 2 ^ 31 }
    ensures { IfOk result (λ workers. workers.items ≡ new_workers count) }
{
    let mut workers = Vec::new(alloc);
    for number in 0..count {
        let owner = Owner(201 + number);
        workers.push(Worker {
            owner,
            entry: None,
            started: 0,
        })?;
    }
    Ok(workers)
}

/// The next move of the worker at a place.
pub fn turn_at(
    alloc: Global,
    workers: &mut Vec<Worker>,
    place: usize,
    source: &Log,
    node: &mut Node,
) -> R<Turn>
    requires fits { LogFits node.old.schemas source.now.entries }
    requires place { place < length workers.old.items }
    ensures ok { IfOk result (λ turn. turned_by turn workers.new.items node.new ≡ turned_at place (slice_get workers.old.items place) source.now.entries workers.old.items node.old) }
    ensures err { OnErr result ((workers.new.items ≡ workers.old.items) × (node.new ≡ node.old)) }
{
    let left = entry_left(node.applied(), source.len(), workers.as_slice());
    let mut worker = workers[place];
    let turn = move_worker(alloc, &mut worker, left, source, node)?;
    workers[place] = worker;
    Ok(turn)
}

/// Rolls the transactions of workers back.
pub fn end_all(workers: &[Worker], node: &mut Node)
    ensures { node.new ≡ all_ended workers.now node.old }
{
    let mut rest = workers;
    while let Some((first, more)) = rest.split_first() {
        node.rollback(first.owner);
        rest = more;
    }
}

/// Takes the entry of the worker at a place.
#[tactic(auto, using(crate::proofs::TeamLemmas::set_emptied))]
fn take_entry_at(workers: &mut Vec<Worker>, place: usize)
    requires { place < length workers.old.items }
    ensures { workers.new.items ≡ emptied_at place workers.old.items }
{
    let worker = Worker {
        owner: workers[place].owner,
        entry: None,
        started: 0,
    };
    workers[place] = worker;
}

/// Takes the workers' entries from them.
#[tactic(auto, using(crate::proofs::TeamLemmas::one_more_emptied, crate::proofs::TeamLemmas::same_length_at, crate::proofs::TeamLemmas::all_emptied))]
pub fn take_entries(workers: &mut Vec<Worker>)
    ensures { workers.new.items ≡ map without_entry workers.old.items }
{
    for place in 0..workers.len() {
        take_entry_at(workers, place);
    }
}
