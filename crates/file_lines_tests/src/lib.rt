//! Tests of file_lines, over its public calls.
#![tactic(auto)]

#[cfg(test)]
mod opening_tests;
