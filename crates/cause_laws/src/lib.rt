//! The causes for which a line of the workload file is refused, looked at in their order.
#![tactic(auto)]

mod laws;

pub use laws::said_lines;
