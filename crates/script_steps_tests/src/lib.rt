//! Tests of script_steps, over its public calls.
#![tactic(auto)]

#[cfg(test)]
mod step_tests;
