//! What the lines of a workload file before a line leave of rules, and the limits, the order and the form of the next line.
#![tactic(auto)]

mod checks;
mod line_faults;
mod marks;

pub use checks::{LineCheck, long_fault, section_items};
pub use line_faults::LineFault;
pub use marks::Marks;
