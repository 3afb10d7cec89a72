//! The words of a line of the workload file: numbers, actors, items of a schedule, nodes, names, and words in capitals.
#![tactic(auto)]

mod actors;
mod items;
mod names;
mod nodes;
mod numbers;
mod sections;

pub use actors::{ActorWord, actor_of};
pub use items::{ItemWord, item_of};
pub use names::name_of;
pub use nodes::{NodeWord, node_of};
pub use numbers::{cut_decimal, decimal_of, digits_of, led_number};
pub use sections::{is_keyword, section_named};

#[cfg(test)]
mod tests;
