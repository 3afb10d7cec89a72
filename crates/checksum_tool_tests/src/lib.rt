//! Tests of checksum_tool: the tool and other owners on one node, over public calls.
#![tactic(auto)]

#[cfg(test)]
mod answers;
#[cfg(test)]
mod calls;
#[cfg(test)]
mod plays;
#[cfg(test)]
mod runs;
#[cfg(test)]
mod steps;
