//! The encoding of a row, and checksums of rows: a count, and the XOR of a digest of each row's
//! encoding, as pt-table-checksum makes of a chunk (its manual, the option --function).
#![tactic(auto)]

mod checksums;
mod crc_digits;
mod digest_laws;
mod encoding;
mod encoding_laws;

pub use checksums::{add, add_with};
pub use crc_digits::crc_text;
pub use digest_laws::rows_are_added_one_by_one;
pub use encoding::encode;
pub use encoding_laws::{encodings_tell_rows_apart, no_spelling_begins_another};

#[cfg(test)]
mod tests;
