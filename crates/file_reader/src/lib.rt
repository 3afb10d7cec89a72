//! A whole workload file, read line by line: its first fault, or what all its lines leave.
#![tactic(auto)]

mod faults;
mod reads;

pub use reads::read_file;
