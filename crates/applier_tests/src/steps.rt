//! What a test describes: calls, and what comes of each.

/// A call, and what is wanted to come of it.
pub(crate) type Step = (Call, Did);

/// A statement on the table `t (id BIGINT KEY, v BIGINT)`.
#[derive(Clone, Copy)]
pub(crate) enum Sample {
    /// INSERT of (id, 0).
    Insert(i64),
    /// DELETE of every row.
    Clear,
    /// SELECT of the keys between two numbers FOR UPDATE.
    Read(i64, i64),
}

#[derive(Clone, Copy)]
pub(crate) enum Call {
    /// The next turn of a worker.
    Turn(u32),
    Stop,
    Start,
    Ask(Question),
    /// What another owner does on the replica.
    Other(u32, Act),
}

#[derive(Clone, Copy)]
pub(crate) enum Act {
    /// Begins a transaction as a client.
    Begin,
    /// Begins to apply an entry.
    Apply(u64),
    Start(Sample),
    /// Starts a statement and makes its first visit.
    Run(Sample),
    Rollback,
}

#[derive(Clone, Copy)]
pub(crate) enum Question {
    IsStopped,
    /// The entry that a worker has.
    Entry(u32),
    /// The last entry that the replica applied.
    Applied,
    /// How many entries the replica's history has.
    Written,
}

#[derive(Clone, Copy, Debug, PartialEq, Eq)]
pub(crate) enum Did {
    Took(u64),
    Stepped,
    Done,
    Duplicate,
    Waits(u32),
    /// The victim, and how many are on the cycle.
    Deadlock(u32, usize),
    Committed(u64),
    /// The last entry that was applied.
    Nothing(u64),
    /// An earlier entry, which is not committed yet.
    OrderWait(u64),
    Stopped,
    Yes,
    No,
    Is(u64),
    Absent,
    Begun,
    Started,
    Ended,
    /// The call cannot be made.
    Refused,
}
