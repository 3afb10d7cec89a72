//! Tests of the file's reader, and of the world that is made of what it reads.
#![tactic(auto)]

#[cfg(test)]
mod read_tests;
#[cfg(test)]
mod summary_tests;
