//! The next visit of a statement that goes row by row: which locks it takes and how far it comes, over a
//! live table and what other owners have locked (MySQL Reference Manual, "Locks Set by Different SQL
//! Statements in InnoDB").
#![tactic(auto)]

mod plans;
mod visit_laws;
mod visits;
mod walk_stops;

pub use plans::Plan;
pub use visit_laws::stops_are_live_or_locked_by_others;
pub use visits::next_plan;
