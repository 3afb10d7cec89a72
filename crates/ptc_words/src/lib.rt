//! The words of the command line, and the lines that refuse them.
#![tactic(auto)]

mod given;
mod numbers;
mod refusals;
mod words;

pub use refusals::{steps_refusal, word_refusal};
pub use words::{Options, WordFault, read};

#[cfg(test)]
mod tests;
