//! The report of a run: what it says, and its exact text.
#![tactic(auto)]

mod end_lines;
mod log_lines;
mod reports;
mod row_lines;
mod summaries;
mod verdict_lines;

pub use end_lines::{push_equal_lines, push_status};
pub use log_lines::{push_histories, push_log};
pub use reports::report;
pub use row_lines::{push_head, push_nodes};
pub use summaries::{
    DuplicateLine, DuplicateLines, EqualLine, EqualLines, Histories, NodeTables, Summary,
    VerdictLine, VerdictLines,
};
pub use verdict_lines::push_verdicts;
