ghost use Rattle.std.specs.Prelude.{◌≡◌, ◌≤◌, ◌-◌, false, length, IfOk, OnErr};
ghost use Rattle.std.specs.List.{slice_get};
ghost use Rattle.applier.specs.Appliers.{new_applier, entry_of, LogFits};
ghost use Rattle.applier.specs.Moves.{next_move, stop_move};
ghost use Rattle.applier.specs.TeamParts.{turned_by};

use crate::teams::{end_all, new_workers, take_entries, turn_at};
use crate::turns::Turn;
use crate::workers::Worker;
use node_engine::Node;
use row_types::R;
use statement_log::Log;
use std::alloc::Global;
use std::marker::Model;

/// The applier of a replica: whether it is stopped, and which entries its workers have.
#[derive(Drop)]
pub struct Applier {
    replica: u32,
    stopped: bool,
    workers: Vec<Worker>,
}

impl Model for Applier {
    ghost use Rattle.applier.specs.Appliers.{ApplierView};
    ghost use Rattle.applier.specs.ApplierParts.{view_of};

    ghost Value = { ApplierView };

    ghost view = { view_of };
}

impl Applier {
    /// An applier of a replica that is not stopped and has taken nothing yet, with 1 to 8 workers. Worker 1
    /// holds locks as owner 201, worker 2 as owner 202 and so on.
    pub fn new(alloc: Global, replica: u32, workers: u32) -> R<Applier>
        requires least { 1 ≤ workers }
        requires most { workers ≤ 8 }
        ensures { IfOk result (λ applier. applier ≡ new_applier replica workers) }
    {
        Ok(Applier {
            replica,
            stopped: false,
            workers: new_workers(alloc, workers)?,
        })
    }

    /// Makes the next move of a worker, by its number from 1, on the replica, from the source's log, and answers
    /// what it was: Nothing exactly where it is not stopped and the worker has no entry and none is left to
    /// take, OrderWait exactly where an earlier entry than the worker's is not committed and its statements are
    /// done or its transaction was rolled back, Stopped exactly between a stop and a start. Out of memory leaves
    /// the applier and the replica as they were.
    #[tactic(auto, using(crate::proofs::StayLemmas::schemas_stay))]
    pub fn turn(&mut self, alloc: Global, worker: u32, source: &Log, node: &mut Node) -> R<Turn>
        requires least { 1 ≤ worker }
        requires most { worker ≤ length self.old.workers }
        requires fits { LogFits node.old.schemas source.now.entries }
        ensures ok { IfOk result (λ turn. turned_by turn self.new.workers node.new ≡ next_move worker source.now.entries self.old node.old) }
        ensures err { OnErr result ((self.new ≡ self.old) × (node.new ≡ node.old)) }
        ensures replica { self.new.replica ≡ self.old.replica }
        ensures stopped { self.new.stopped ≡ self.old.stopped }
        ensures schemas { node.new.schemas ≡ node.old.schemas }
    {
        if self.stopped {
            return Ok(Turn::Stopped);
        }
        let turn = turn_at(alloc, &mut self.workers, worker as usize - 1, source, node)?;
        Ok(turn)
    }

    /// Rolls the workers' transactions back and takes their entries from them; false, and nothing changed, where
    /// it is stopped already. It takes no memory.
    pub fn stop(&mut self, node: &mut Node) -> bool
        ensures stop { record { changed = result; applier = self.new; node = node.new } ≡ stop_move self.old node.old }
        ensures schemas { node.new.schemas ≡ node.old.schemas }
    {
        if self.stopped {
            return false;
        }
        end_all(self.workers.as_slice(), node);
        take_entries(&mut self.workers);
        self.stopped = true;
        true
    }

    /// Lets the workers take entries again; false where it was not stopped.
    pub fn start(&mut self) -> bool
        ensures changed { result ≡ self.old.stopped }
        ensures started { self.new ≡ record self.old { stopped = false } }
    {
        let stopped = self.stopped;
        self.stopped = false;
        stopped
    }

    pub fn is_stopped(&self) -> bool
        ensures { result ≡ self.now.stopped }
    {
        self.stopped
    }

    /// The number of its replica.
    pub fn replica(&self) -> u32
        ensures { result ≡ self.now.replica }
    {
        self.replica
    }

    /// How many workers it has.
    pub fn workers(&self) -> usize
        ensures { result ≡ length self.now.workers }
    {
        self.workers.len()
    }

    /// The entry that a worker has, by its number from 1.
    pub fn entry(&self, worker: u32) -> Option<u64>
        requires least { 1 ≤ worker }
        requires most { worker ≤ length self.now.workers }
        ensures { result ≡ entry_of (slice_get self.now.workers (worker - 1)) }
    {
        self.workers[worker as usize - 1].entry
    }
}
