//! Tests of ordered_table, over its public calls.
#![tactic(auto)]

#[cfg(test)]
mod map_tests;
#[cfg(test)]
mod table_tests;
