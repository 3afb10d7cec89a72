//! Tests of lock_table, over its public calls.
#![tactic(auto)]

#[cfg(test)]
mod builders;
#[cfg(test)]
mod copy_tests;
#[cfg(test)]
mod exclusion_tests;
#[cfg(test)]
mod holding_tests;
