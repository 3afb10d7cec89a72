//! Tests of the top call and of the words.
#![tactic(auto)]

#[cfg(test)]
mod copy_tests;
#[cfg(test)]
mod top_tests;
