//! Tests of session: two sessions and a worker on one node, over its public calls.
#![tactic(auto)]

#[cfg(test)]
mod deeds;
#[cfg(test)]
mod plays;
#[cfg(test)]
mod scenes;
#[cfg(test)]
mod scripts;
#[cfg(test)]
mod steps;
#[cfg(test)]
mod turn_tests;
#[cfg(test)]
mod workers;
