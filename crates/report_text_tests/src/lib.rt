//! Tests of the report's text and of the copies of what it says, over the crate's public calls. Expected
//! lines are those of docs/REPORT.md.
#![tactic(auto)]

#[cfg(test)]
mod copy_tests;
#[cfg(test)]
mod report_tests;
#[cfg(test)]
mod summaries;
