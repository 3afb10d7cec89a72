//! Tests of reading statements, over the public calls. Places and canonical texts are those of a plain program
//! that was written apart from this one.
#![tactic(auto)]

#[cfg(test)]
mod deep_tests;
#[cfg(test)]
mod fault_tests;
#[cfg(test)]
mod statement_tests;
#[cfg(test)]
mod tables;
