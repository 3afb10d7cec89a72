//! Whether a line of a workload file whose form is known breaks a rule on what it says, and which one first.
#![tactic(auto)]

mod decisions;
mod row_decisions;
mod step_decisions;
mod tests;
mod twins;

pub use decisions::{
    end_fault, header_fault, level_fault, local_fault, replicas_fault, schedule_fault,
    session_fault, table_fault,
};
pub use row_decisions::row_line_fault;
pub use step_decisions::step_fault;
pub use tests::LineTests;
