use report_text::{EqualLines, Histories, NodeTables, VerdictLines};
use row_types::Schemas;
use statement_log::Entries;
use trace_text::{AbandonedLines, DuplicateLines, Journal, UnfinishedLines};

/// What a report on a run says, in the order in which it is printed.
#[derive(Debug, Drop)]
pub struct RunSummary {
    pub schemas: Schemas,
    /// The rows that each node began with.
    pub start: NodeTables,
    /// The turns, which are printed where a trace is asked for.
    pub journal: Journal,
    pub log: Entries,
    pub histories: Histories,
    pub verdicts: VerdictLines,
    /// The rows that each node has at the end.
    pub finals: NodeTables,
    pub equal: EqualLines,
    pub duplicates: DuplicateLines,
    pub abandoned: AbandonedLines,
    pub unfinished: UnfinishedLines,
    pub status: u8,
}
