//! The world of a run: its nodes, its actors' turns, the run and what its report says.
#![tactic(auto)]

mod actors;
mod live_tables;
mod node_parts;
mod node_states;
mod nodes;
mod refusals;
mod sessions;
mod summary;
mod summary_lines;
mod worlds;

pub use actors::ToolPhase;
pub use live_tables::LiveTables;
pub use nodes::Node;
pub use refusals::Refusal;
pub use report_text::Summary;
pub use sessions::Session;
pub use workload_file::{Actor, Copies, Item, Schedule, Workload};
pub use worlds::World;
