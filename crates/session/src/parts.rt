use crate::stages::Stage;
use lock_table::Owner;
use ptc_statement::Script;
use statement_log::Origin;

/// The parts of a session.
#[derive(Drop)]
pub struct Parts {
    pub owner: Owner,
    pub origin: Origin,
    pub script: Script,
    pub next: usize,
    pub first: usize,
    pub stage: Stage,
    pub in_progress: bool,
    pub rollbacks: u32,
    pub ended: u32,
    pub abandoned: Vec<u32>,
    pub refused: Vec<u32>,
    pub settled: usize,
}
