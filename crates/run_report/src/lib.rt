//! The report of a run by moves: what it says, and its exact text.
#![tactic(auto)]

mod reports;
mod summaries;

pub use reports::report;
pub use summaries::RunSummary;
