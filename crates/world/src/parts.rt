use crate::replicas::Replica;
use checksum_tool::ChecksumTool;
use node_engine::Node;
use session::Session;
use trace_text::{Journal, JournalLine};
use workload::Schedule;
use world_model::RunOptions;

/// The parts of a world, with the number of moves that the journal tells of.
#[derive(Drop)]
pub struct Parts {
    pub options: RunOptions,
    pub source: Node,
    pub sessions: Vec<Session>,
    pub tool: ChecksumTool,
    pub replicas: Vec<Replica>,
    pub schedule: Schedule,
    pub journal: Vec<JournalLine>,
    pub moves: u64,
}

/// What is left of a world for its report.
#[derive(Drop)]
pub struct WorldParts {
    pub source: Node,
    pub sessions: Vec<Session>,
    pub tool: ChecksumTool,
    /// by rising number
    pub replicas: Vec<Replica>,
    pub journal: Journal,
}
