//! Tests of node_engine: owners on one node, over its public calls.
#![tactic(auto)]

#[cfg(test)]
mod answers;
#[cfg(test)]
mod asks;
#[cfg(test)]
mod plays;
#[cfg(test)]
mod runs;
#[cfg(test)]
mod samples;
#[cfg(test)]
mod steps;
