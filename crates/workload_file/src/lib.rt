//! What a workload file says: tables and rows, scripts, and a schedule of turns. Its reader stands in
//! `ptc_run` as yet.
#![tactic(auto)]

mod actors;
mod schedule;
mod workload;

pub use actors::Actor;
pub use schedule::{Item, Schedule};
pub use workload::{Copies, Workload};

#[cfg(test)]
mod tests;
