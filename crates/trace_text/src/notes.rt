ghost use Rattle.std.specs.Prelude.{◌≡◌, ◌↔◌, IsTrue, IfOk};

use row_types::R;
use std::alloc::Global;
use workload::{Actor, Actors};

/// What a turn came to, as the trace tells it. Tables are numbered from 0, all else from 1.
#[derive(Debug, Drop)]
pub enum Note {
    /// the actor takes no part in this run
    Off,
    /// a statement's visit, which is not its last one
    Step,
    /// a statement's last visit
    Done,
    /// a lock that this actor holds excludes the visit
    Waits { by: Actor },
    /// waiting would close a cycle, listed from the actor of this turn on; the victim is rolled back
    Deadlock { victim: Actor, cycle: Actors },
    /// an INSERT at a key that is there
    Duplicate,
    /// the transaction was rolled back by another actor's turn
    Victim,
    Begin,
    Start,
    /// a commit that wrote the log entry at this position
    Commit { position: u64 },
    /// a commit that wrote nothing
    CommitNone,
    /// a commit of a replica's own session
    CommitLocal,
    Rollback,
    Finished,
    /// the replica's appliers are stopped
    Stopped,
    /// an applier begins an entry
    Take { entry: u64 },
    /// an applier that has applied so many entries finds no further one
    Nothing { applied: u64 },
    /// an earlier entry than the worker's, which is not committed yet
    Order { entry: u64 },
    /// a tool gave up after so many rollbacks
    Retries { rollbacks: u32 },
    /// the checksum tool cleared a table's check rows
    Clear { position: u64 },
    /// the checksum tool chose a chunk
    Choose { table: u32, chunk: u32 },
    /// the checksum tool published the source's checksum
    Master { position: u64 },
}

impl Note {
    pub fn copy(&self, alloc: Global) -> R<Note>
        ensures { IfOk result (λ copy. copy ≡ self.now) }
    {
        match self {
            Note::Off => Ok(Note::Off),
            Note::Step => Ok(Note::Step),
            Note::Done => Ok(Note::Done),
            Note::Waits { by } => Ok(Note::Waits { by: *by }),
            Note::Deadlock { victim, cycle } => Ok(Note::Deadlock {
                victim: *victim,
                cycle: cycle.copy(alloc)?,
            }),
            Note::Duplicate => Ok(Note::Duplicate),
            Note::Victim => Ok(Note::Victim),
            Note::Begin => Ok(Note::Begin),
            Note::Start => Ok(Note::Start),
            Note::Commit { position } => Ok(Note::Commit {
                position: *position,
            }),
            Note::CommitNone => Ok(Note::CommitNone),
            Note::CommitLocal => Ok(Note::CommitLocal),
            Note::Rollback => Ok(Note::Rollback),
            Note::Finished => Ok(Note::Finished),
            Note::Stopped => Ok(Note::Stopped),
            Note::Take { entry } => Ok(Note::Take { entry: *entry }),
            Note::Nothing { applied } => Ok(Note::Nothing { applied: *applied }),
            Note::Order { entry } => Ok(Note::Order { entry: *entry }),
            Note::Retries { rollbacks } => Ok(Note::Retries {
                rollbacks: *rollbacks,
            }),
            Note::Clear { position } => Ok(Note::Clear {
                position: *position,
            }),
            Note::Choose { table, chunk } => Ok(Note::Choose {
                table: *table,
                chunk: *chunk,
            }),
            Note::Master { position } => Ok(Note::Master {
                position: *position,
            }),
        }
    }
}

/// Why an actor could not finish.
#[derive(Clone, Copy, Debug, PartialEq, Eq)]
pub enum Why {
    /// a tool gave up after so many rollbacks
    Retries { rollbacks: u32 },
    /// a lock that this actor holds excludes its next visit
    Waits { by: Actor },
    /// an earlier entry than the worker's could not be committed
    Order { entry: u64 },
}
