//! What is kept of the parts of an expression or a condition that are read.
#![tactic(auto)]

mod leaves;
mod operands;
mod pairs;
mod row_tests;

pub use leaves::{leaf, leaf_facts, names_first, names_second, signed};
pub use operands::{Operand, Tree, paren};
pub use pairs::{nullness, range, sign, two};
pub use row_tests::row_test;
