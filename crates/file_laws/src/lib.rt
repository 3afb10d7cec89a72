//! The laws of the text of the workload file.
#![tactic(auto)]

mod laws;

pub use laws::{one_line, one_reading, places};
