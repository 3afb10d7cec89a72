//! Tests of the canonical text of statements, over the crate's public calls. Expected texts are those of
//! the grammar of statements.
#![tactic(auto)]

#[cfg(test)]
mod condition_tests;
#[cfg(test)]
mod statement_tests;
#[cfg(test)]
mod texts;
