use node_engine::Visit;

/// What a worker did in its turn. Entries are numbered from 1.
#[derive(Debug, Drop)]
pub enum Turn {
    /// An entry was taken, and its first statement started, if it has one.
    Took { entry: u64 },
    /// A visit; where it is done with its statement, the entry's next one is started.
    Visited(Visit),
    Committed { entry: u64 },
    /// Nothing: no entry is left to take. The last that was applied, 0 where none was.
    Nothing { applied: u64 },
    /// Nothing: this entry, an earlier one than the worker's, is not committed yet.
    OrderWait { entry: u64 },
    /// Nothing: the applier is stopped.
    Stopped,
}
