//! What a test describes: who makes which call, and what comes of it.

/// A session or the worker by its number, its call, and what is wanted to come of it.
pub(crate) type Step = (u32, Call, Did);

/// A line of a script, on the table `t (id BIGINT KEY, v BIGINT)`.
#[derive(Clone, Copy)]
pub(crate) enum Line {
    Begin,
    Commit,
    Rollback,
    /// INSERT of (id, 0).
    Insert(i64),
    /// SELECT of the keys between two numbers FOR UPDATE.
    Read(i64, i64),
}

#[derive(Clone, Copy)]
pub(crate) enum Call {
    /// A session's next turn.
    Turn,
    Ask(Question),
    /// A worker begins to apply an entry.
    Apply(u64),
    /// A worker starts a line's statement and makes its first visit.
    Work(Line),
}

/// What is asked of a session.
#[derive(Clone, Copy)]
pub(crate) enum Question {
    IsInProgress,
    IsAtEnd,
    /// The number of a transaction that was abandoned: of the first, the second and so on, from 0.
    Abandoned(usize),
    /// The line of an INSERT that was refused, likewise.
    Refused(usize),
}

#[derive(Clone, Copy, Debug, PartialEq, Eq)]
pub(crate) enum Did {
    Began,
    Started,
    Stepped,
    Done,
    Duplicate,
    Waits(u32),
    /// The victim, and how many are on the cycle.
    Deadlock(u32, usize),
    /// The position of an entry.
    Committed(u64),
    CommittedNone,
    RolledBack,
    Victim,
    Finished,
    Yes,
    No,
    Is(u32),
    Absent,
    /// The call cannot be made.
    Refused,
}
