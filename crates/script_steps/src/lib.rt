//! Reads a line that stands in a script: one of the three words of transactions, or else a statement.
#![tactic(auto)]

mod step_readings;

pub use step_readings::{StepReading, read_step};
