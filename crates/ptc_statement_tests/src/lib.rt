//! Tests of what a statement leaves at a key, and of the keys that it walks.
#![tactic(auto)]

#[cfg(test)]
mod effect_tests;
#[cfg(test)]
mod reach_tests;
