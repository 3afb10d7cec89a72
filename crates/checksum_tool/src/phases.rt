use node_engine::Visit;

/// Where the tool is with its chunk.
#[derive(Clone, Copy, Debug, PartialEq, Eq)]
pub enum ToolPhase {
    /// The table's earlier checksums are to be forgotten.
    Clear,
    /// The next chunk is to be chosen.
    Choose,
    /// The CHECKSUM of the chunk is in progress, or done and to be committed.
    Walk,
    /// The source's own checksum of the chunk is to be published.
    Master,
    /// The chunk was rolled back this often, and is not begun again.
    RetriesUsed { rollbacks: u32 },
    Finished,
}

/// What the tool did in its turn. Positions are those of the entries that were written; tables are numbered
/// from 0, chunks from 1.
#[derive(Debug, Drop)]
pub enum ToolTurn {
    Cleared { position: u64 },
    /// The CHECKSUM of a chunk was started; its visits come in later turns.
    Chose { table: u32, chunk: u32 },
    Visited(Visit),
    Committed { position: u64 },
    Mastered { position: u64 },
    /// Another's turn had rolled the CHECKSUM back. It never comes on a node where nobody applies entries.
    Victim,
    /// Nothing: the chunk was rolled back too often.
    RetriesUsed { chunk: u32, rollbacks: u32 },
    /// Nothing: all tables are behind it.
    Finished,
}
