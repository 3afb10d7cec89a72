//! Tests of row_types, over its public calls.
#![tactic(auto)]

#[cfg(test)]
mod tests;
