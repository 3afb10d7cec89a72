//! The top call of `ptc`: the words, the file of the first form, the run and its report.
#![tactic(auto)]

mod first_form;
mod kept_rows;
mod line_cuts;
mod row_lines;
mod schedule_lines;
mod script_lines;
mod top;
mod words;

pub use first_form::{FileFault, LimitKind, one_reading, read};
pub use top::ptc;
pub use words::{WordFault, read_words};
