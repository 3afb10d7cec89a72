//! Tests of applier: an applier and others on a replica's node, over its public calls.
#![tactic(auto)]

#[cfg(test)]
mod deeds;
#[cfg(test)]
mod logs;
#[cfg(test)]
mod others;
#[cfg(test)]
mod plays;
#[cfg(test)]
mod replicas;
#[cfg(test)]
mod steps;
#[cfg(test)]
mod turn_tests;
