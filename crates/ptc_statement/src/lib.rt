//! Statements on tables, what they leave of a table's rows, and the scripts of sessions.
#![tactic(auto)]

mod assignments;
mod conditions;
mod effect_laws;
mod effects;
mod evaluation;
mod expressions;
mod reaches;
mod scripts;
mod statements;

pub use assignments::{Assignment, Assignments, Sets};
pub use conditions::Cond;
pub use effect_laws::{
    no_taken_row_is_out_of_reach, statements_act_key_by_key, statements_leave_what_is_out_of_reach,
};
pub use effects::{act, kept, updated};
pub use evaluation::takes;
pub use expressions::{Expr, Op};
pub use reaches::reach;
pub use scripts::{Script, ScriptLine, ScriptLines, ScriptStep, Scripts};
pub use statements::{Statement, Statements};
