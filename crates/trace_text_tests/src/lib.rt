//! The lines on turns, word by word.
#![tactic(auto)]

#[cfg(test)]
mod journal_tests;
#[cfg(test)]
mod line_tests;
