//! What a test describes: the tool's turn or another owner's call, and what comes of it.

/// An owner, its call, and what is wanted to come of it. The tool's turns are the owner 100's.
pub(crate) type Step = (u32, Call, Came);

#[derive(Clone, Copy)]
pub(crate) enum Call {
    /// The tool's turn.
    Turn,
    /// Rows with the keys 10, 20 and so on, put in where none is and committed.
    Fill(u8),
    Begin,
    /// Begins to apply an entry of a source.
    Apply,
    /// Starts the update of the row of a key, and visits until it is done or waits.
    Update(i64),
    /// Starts the update of the row of a key.
    Start(i64),
    /// Starts an INSERT, and visits until it is done or waits.
    Insert(i64),
    /// Visits until the statement is done or waits.
    Go,
    Commit,
    /// The count of the check row of the first table's first chunk.
    Counted,
    /// Whether its master is the source's own checksum.
    IsMastered,
    /// The position of the tool's last entry.
    EndedAt,
}

#[derive(Clone, Copy, Debug, PartialEq, Eq)]
pub(crate) enum Came {
    Begun,
    Started,
    Further,
    Done,
    Duplicate,
    Waits(u32),
    /// The victim, and how many are on the cycle.
    Deadlock(u32, usize),
    /// The position of an entry.
    Written(u64),
    Unwritten,
    Cleared(u64),
    /// The table and the chunk.
    Chose(u32, u32),
    Mastered(u64),
    Victim,
    /// How often the chunk was rolled back.
    Used(u32),
    Finished,
    Counts(u64),
    Mastering(bool),
    /// There is none.
    Absent,
    /// The call cannot be made.
    Refused,
}
