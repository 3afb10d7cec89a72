//! Whole files, and the refusal of each that is none.
#![tactic(auto)]

#[cfg(test)]
mod fault_tests;
#[cfg(test)]
mod file_tests;
