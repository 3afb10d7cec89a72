//! What a test describes: an owner's call, and what comes of it.
use crate::samples::Sample;

/// An owner, its call, and what is wanted to come of it.
pub(crate) type Step = (u32, Call, Came);

#[derive(Clone, Copy)]
pub(crate) enum Call {
    /// Rows with the keys 10, 20 and so on and the numbers 1, 2 and so on, put in where none is and
    /// committed.
    Fill(u8),
    Begin,
    /// Begins to apply the source's entry of this number.
    Apply(u64),
    /// Starts a statement and visits until it is done, is refused or waits.
    Run(Sample),
    Start(Sample),
    Visit,
    /// Visits until the statement is done, is refused or waits.
    Go,
    /// Starts a statement and makes its first visit, in one call.
    StartVisit(Sample),
    /// The next visit and, where it is done, the start of a further statement, in one call.
    VisitStart(Sample),
    Commit,
    /// Commits as the checksum tool.
    CommitChecks,
    /// Commits as the worker that applies the source's entry of this number.
    CommitApplied(u64),
    Rollback,
    Publish(u32),
    Ask(Question),
}

/// What is asked of a node.
#[derive(Clone, Copy)]
pub(crate) enum Question {
    IsBegun,
    WaitsFor,
    /// The second number of the live row at a key.
    Value(i64),
    LiveRows,
    CommittedRows,
    /// How many rows the last locking read took.
    RowsRead,
    /// How many rows the check row of a chunk counts, and its position.
    CheckedRows(u32),
    CheckedAt(u32),
    /// How many statements the entry at a position has.
    Logged(u64),
    Applied,
}

#[derive(Clone, Copy, Debug, PartialEq, Eq)]
pub(crate) enum Came {
    Begun,
    Started,
    Ended,
    Further,
    Done,
    Duplicate,
    Waits(u32),
    Nobody,
    /// The victim, and how many are on the cycle.
    Deadlock(u32, usize),
    /// The position of an entry.
    Written(u64),
    Unwritten,
    NoCheck,
    Is(i64),
    Absent,
    Counts(u64),
    /// The call cannot be made.
    Refused,
}
