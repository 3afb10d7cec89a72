//! A report of a run, group of lines by group of lines, with and without its trace.
#![tactic(auto)]

#[cfg(test)]
mod report_tests;
