//! The tables of a workload file while it is read, with their rows on the source and on each replica.
#![tactic(auto)]

mod file_rows;
mod file_tables;
mod node_rows;

pub use file_rows::FileRows;
pub use file_tables::FileTable;
