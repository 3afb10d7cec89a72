//! Rows, keys, columns and schemas for tests, each made by one short call.
#![tactic(auto)]

mod key_builders;
mod row_builders;
mod schema_builders;

pub use key_builders::{key, key_of_two, keys_between};
pub use row_builders::{null_row, row, row_of_text, rows, tables, text, text_value};
pub use schema_builders::{column, pair_columns, pair_schema, schema, schemas};
