//! Tests of copies of statements, their parts, and scripts.
#![tactic(auto)]

#[cfg(test)]
mod copy_tests;
#[cfg(test)]
mod statement_tests;
