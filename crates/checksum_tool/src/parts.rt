use crate::phases::ToolPhase;
use row_types::{DigestKind, Edge};

/// The parts of the tool.
#[derive(Drop)]
pub struct Parts {
    pub tables: u32,
    pub kind: DigestKind,
    pub retries: u32,
    pub phase: ToolPhase,
    pub table: u32,
    pub chunk: u32,
    pub after: Edge,
    pub until: Edge,
    pub rollbacks: u32,
    pub ended: Option<u64>,
}
