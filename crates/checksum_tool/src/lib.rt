//! The checksum tool: it goes through the tables of a node, a move at a time. It forgets a table's earlier
//! checksums, has the CHECKSUM of one chunk after the other logged, and publishes the source's own.
#![tactic(auto)]

mod clears;
mod moves;
mod parts;
mod phases;
mod places;
mod spans;
mod tools;

pub use phases::{ToolPhase, ToolTurn};
pub use tools::ChecksumTool;
