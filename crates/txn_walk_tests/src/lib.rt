//! Tests of txn_walk, over its public calls.
#![tactic(auto)]

#[cfg(test)]
mod builders;
#[cfg(test)]
mod plan_tests;
#[cfg(test)]
mod walk_tests;
