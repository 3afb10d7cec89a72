//! The lines of a workload file, and what a line begins.
#![tactic(auto)]

mod lines;
mod openings;

pub use lines::{content, first_line, has_feed};
pub use openings::{Opening, StepWord, is_one_word, opening_of, step_word};
