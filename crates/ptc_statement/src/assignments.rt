ghost use Rattle.std.specs.Prelude.{◌≡◌, ◌↔◌, IsTrue, IfOk};

use crate::expressions::Expr;
use row_types::{Items, Plain, R};
use std::alloc::Global;

/// The assignment of an expression to a column, counted from 0.
#[derive(Debug, Drop)]
pub struct Assignment {
    pub column: u32,
    pub expr: Expr,
}

/// The assignments of an UPDATE, done from the first to the last.
pub type Assignments = Items<Assignment>;

/// The same, by its earlier name.
pub type Sets = Assignments;

impl Assignment {
    pub fn copy(&self, alloc: Global) -> R<Assignment>
        ensures { IfOk result (λ copy. copy ≡ self.now) }
    {
        Ok(Assignment {
            column: self.column,
            expr: self.expr.copy(alloc)?,
        })
    }

    pub fn same(&self, other: &Assignment) -> bool
        ensures { IsTrue result ↔ (self.now ≡ other.now) }
    {
        self.column == other.column && self.expr.same(&other.expr)
    }
}

impl Plain for Assignment {
    fn copy(&self, alloc: Global) -> R<Assignment> {
        Assignment::copy(self, alloc)
    }

    fn same(&self, other: &Assignment) -> bool {
        Assignment::same(self, other)
    }
}
