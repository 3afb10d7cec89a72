//! Tests of file_scripts, over its public calls.
#![tactic(auto)]

#[cfg(test)]
mod script_tests;
