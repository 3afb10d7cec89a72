//! The lines of a report on turns: the trace, and the actors that could not finish.
#![tactic(auto)]

mod lines;
mod names;
mod notes;
mod texts;

pub use lines::{
    AbandonedLine, AbandonedLines, DuplicateLine, DuplicateLines, Journal, JournalLine,
    UnfinishedLine, UnfinishedLines,
};
pub use notes::{Note, Why};
pub use texts::{push_abandoned, push_duplicates, push_journal, push_unfinished};
