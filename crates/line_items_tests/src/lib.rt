//! Tests of line_items, over its public calls.
#![tactic(auto)]

#[cfg(test)]
mod reading_tests;
