//! What the statements of open transactions read: the rows that a locking read takes, the checksum that a
//! CHECKSUM makes; and what a commit makes of the check rows with these checksums.
#![tactic(auto)]

mod check_changes;
mod gains;
mod read_laws;
mod readings;

pub use check_changes::set_checks;
pub use gains::{Gain, gain_of};
pub use read_laws::what_was_read_stays;
pub use readings::{Reading, forget, grow_of, put_unread, read_in, reserve_of, unread};
