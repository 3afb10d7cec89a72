//! One line of a workload file, behind the lines before it: what is first wrong with it, or what it makes of the state.
#![tactic(auto)]

mod lines;
mod section_lines;
mod step_lines;

pub use lines::take_line;
