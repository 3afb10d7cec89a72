//! What the answers of the actors' calls are in the words of the trace, and whether a turn moved anything.
#![tactic(auto)]

mod actors;
mod moves;
mod notes;

pub use actors::{Place, actor_at};
pub use moves::has_moved;
pub use notes::{applier_note, session_note, tool_note};
