//! A line of the workload file, read from the left: its items, or the first word or sign that does not fit, or the limit that it passes.
#![tactic(auto)]

mod column_items;
mod counts;
mod found_items;
mod item_places;
mod line_ends;
mod line_readings;
mod literals;
mod offsets;
mod part_places;
mod ranges;
mod row_items;
mod steps;
mod tallies;
mod word_items;

pub use counts::Counts;
pub use found_items::{FoundItem, LineItem};
pub use item_places::item_at;
pub use line_ends::trimmed;
pub use line_readings::{LineReading, read_line};
pub use literals::quote_of;
pub use part_places::part_place;
