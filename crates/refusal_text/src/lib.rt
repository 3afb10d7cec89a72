//! The line of text with which a program refuses a workload file.
#![tactic(auto)]

mod refusals;
mod words;

pub use refusals::file_refusal;
pub use words::{place_of, statement_word};

#[cfg(test)]
mod tests;
