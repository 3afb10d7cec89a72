use crate::notes::Notes;
use checksum_table::Checks;
use lock_table::LockTable;
use node_model::Txns;
use node_reads::Reading;
use ordered_table::Table;
use row_types::{Schemas, Tables};
use statement_log::Log;

/// What a node keeps: what it began with, its history and check rows, its tables as they are now, its open
/// transactions with what they hold, have to put back and have read.
#[derive(Drop)]
pub struct Parts {
    pub schemas: Schemas,
    pub start: Tables,
    pub history: Log,
    pub checks: Checks,
    pub applied: u64,
    pub tables: Vec<Table>,
    pub txns: Txns,
    pub locks: LockTable,
    pub notes: Notes,
    pub reads: Vec<Reading>,
}
