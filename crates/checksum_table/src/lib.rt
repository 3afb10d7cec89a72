//! The checksums table of a node: its check rows by table and chunk, and the verdict on one
//! (pt-table-checksum's manual, the option --replicate and its table `checksums`).
#![tactic(auto)]

mod check_laws;
mod check_rows;
mod checks;
mod places;

pub use check_laws::{check_rows_are_a_map, digest_test_is_equality, last_chunk_is_the_greatest};
pub use check_rows::{CheckEntry, CheckRow, Verdict};
pub use checks::Checks;

#[cfg(test)]
mod tests;
