use file_text::{LimitKind, LineCause};

/// Why a line is refused, whatever its number.
#[derive(Clone, Copy, Debug, PartialEq, Eq)]
pub enum LineFault {
    Limit(LimitKind),
    Cause(LineCause),
    /// another isolation level than REPEATABLE READ
    Isolation,
}
