//! The text of the workload file: its definition, and the faults with which it is refused.
#![tactic(auto)]

mod faults;
mod places;

pub use faults::{FileFault, LimitKind, LineCause};
pub use places::{ColumnSpot, Keyword, Section, Spot};
