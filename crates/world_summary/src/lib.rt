//! What the report on a run says, from the world at its end.
#![tactic(auto)]

mod covers;
mod findings;
mod node_ends;
mod scripts;
mod statuses;
mod summaries;
mod tables;
mod unfinished;
mod verdicts;

pub use summaries::summary;
