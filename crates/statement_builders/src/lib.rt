//! Statements, conditions and expressions for tests, each made by one short call.
#![tactic(auto)]

mod condition_builders;
mod expression_builders;
mod statement_builders;
mod table_builders;

pub use condition_builders::{
    OPS, and, column_is, compare, key_compare, not, null_test, or, whole_key,
};
pub use expression_builders::{add, mul, neg, number, sub};
pub use statement_builders::{
    SET_MASTER, check, clear_checks, delete, insert, lock_read, one, replace, set, set_five, update,
};
pub use table_builders::{four, four_columns, two_keys};
