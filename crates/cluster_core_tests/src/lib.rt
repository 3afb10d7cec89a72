//! Tests over the public calls of `cluster_core`.
#![tactic(auto)]

#[cfg(test)]
mod copy_tests;
