use row_types::RowFault;
use statement_grammar::TextFault;

/// What a file has too much of.
#[derive(Clone, Copy, Debug, PartialEq, Eq)]
pub enum LimitKind {
    /// the file's bytes, at most 16,777,216
    Bytes,
    /// a line's bytes without its line feed and the CR before it, at most 65,535
    LineBytes,
    /// TABLE lines, at most 16
    Tables,
    /// the columns of a table, at most 16
    Columns,
    /// replicas, at most 8
    Replicas,
    /// SESSION lines, at most 64
    Sessions,
    /// the LOCAL lines of one replica, at most 16
    Locals,
    /// turns and operator's words of the schedule, with repeats, at most 10,000,000
    Schedule,
}

/// Why a line is refused: the first in this order. Places are bytes of the line, from 1.
#[derive(Clone, Copy, Debug, PartialEq, Eq)]
pub enum LineCause {
    /// a line that is not skipped stands behind END
    AfterEnd,
    /// its section is before the present one, or a section that it needs is missing
    Order,
    /// it fits no form of its section; the place of the first word or sign that does not fit, or one past
    /// the line's end
    Form { place: u32 },
    /// it says again what may be said once
    Twice,
    /// the row does not fit its table
    Row(RowFault),
    /// a line of a script is no statement and none of BEGIN, COMMIT and ROLLBACK
    Statement(TextFault),
    /// a statement of the checksum tool
    Tool,
    /// BEGIN in a transaction, its end without one, or the end of a script in one
    Script,
    /// it names a session, a replica or a table that is not declared; the place of the name's word
    Actor { place: u32 },
}

/// Why a file is refused. Lines are numbered from 1.
#[derive(Clone, Copy, Debug, PartialEq, Eq)]
pub enum FileFault {
    Line { number: u32, cause: LineCause },
    /// `got` is one more than the limit
    Limit { which: LimitKind, got: u64 },
    /// another isolation level than REPEATABLE READ
    Isolation { line: u32 },
    /// the file ends before END; the number of its last line, or of the next one where that is whole
    Truncated { line: u32 },
    Memory,
}
