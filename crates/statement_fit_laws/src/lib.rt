//! Laws on statement text: the statement that a text is fits the schemas.
#![tactic(auto)]

mod laws;

pub use laws::what_is_read_fits;
