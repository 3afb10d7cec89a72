use node_engine::Visit;

/// Where a session is between the transactions of its script.
#[derive(Clone, Copy, Debug, PartialEq, Eq)]
pub enum Stage {
    /// It has no transaction.
    Between,
    /// Its transaction is one of BEGIN and its end.
    Within,
    /// Its transaction is a statement of its own.
    Alone,
}

/// What a session did in its turn.
#[derive(Debug, Drop)]
pub enum SessionTurn {
    Began,
    /// A statement was started; its visits come in later turns.
    Started,
    Visited(Visit),
    /// The position of the entry that was written, if one was.
    Committed { position: Option<u64> },
    RolledBack,
    /// Another's turn had rolled the transaction back.
    Victim,
    /// Nothing: the script is at its end.
    Finished,
}
