//! Reads statements: what their words mean, what the rules on kinds and heights ask of what is read, and which
//! fault comes first.
#![tactic(auto)]

mod columns;
mod fact_laws;
mod facts;
mod first_faults;
mod literals;
mod spots;

pub use columns::{column_named, sort_at, sort_of_column, sort_of_word, unknown_name};
pub use fact_laws::facts_of_parts;
pub use facts::{Facts, MOST_HEIGHT, Sort, differ, least_place};
pub use first_faults::earlier;
pub use literals::{negative, value_in};
pub use spots::{End, Literals, OnChunk, Spot};
