//! The visits of a node's statements: what is due of the next one, who excludes it, the cycle that waiting would
//! close, and what doing it changes of all that the node keeps.
#![tactic(auto)]

mod cycles;
mod next_starts;
mod visits;

pub use next_starts::{start_and_visit_parts, visit_and_start_parts};
pub use visits::{Visit, visit_parts, waits_in};
