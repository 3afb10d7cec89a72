//! A whole workload file read: the workload that it is, or its first fault.
#![tactic(auto)]

mod node_tables;
mod reads;
mod workloads;

pub use reads::read;
