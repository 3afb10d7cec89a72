//! The grammar of statements, and the machine that reads them.
#![tactic(auto)]

mod frames;
mod laws;
mod text_faults;

pub use frames::Frame;
pub use laws::{one_cut, one_reading, reads, sentences};
pub use text_faults::TextFault;
