//! Tests of expressions and conditions.
#![tactic(auto)]

#[cfg(test)]
mod arithmetic_tests;
#[cfg(test)]
mod condition_tests;
