//! A workload: what a run begins from, who takes turns, and the items of its schedule.
#![tactic(auto)]

mod actors;
mod schedule;
mod workloads;

pub use actors::{Actor, Actors};
pub use schedule::{Item, Schedule};
pub use workloads::{Copies, LocalScripts, Workload};

#[cfg(test)]
mod tests;
