ghost use Rattle.std.specs.Prelude.{◌≡◌, ◌↔◌, IsTrue, IfOk};

use crate::expressions::{Expr, Op};
use row_types::{Key, R};
use sqlite_items::Boxed;
use std::alloc::Global;

/// A condition on a row. It is true, false or unknown.
#[derive(Debug, Drop)]
pub enum Cond {
    /// Two expressions compared; unknown where a side is NULL.
    Compare { op: Op, left: Expr, right: Expr },
    /// The row's whole key compared with literals, by the order of keys.
    KeyCompare { op: Op, key: Key },
    /// Whether an expression is NULL, or, negated, whether it isn't.
    IsNull { expr: Expr, negated: bool },
    Not(Boxed<Cond>),
    And(Boxed<Cond>, Boxed<Cond>),
    Or(Boxed<Cond>, Boxed<Cond>),
}

impl Cond {
    pub fn copy(&self, alloc: Global) -> R<Cond>
        ensures { IfOk result (λ copy. copy ≡ self.now) }
    {
        match self {
            Cond::Compare { op, left, right } => Ok(Cond::Compare {
                op: *op,
                left: left.copy(alloc)?,
                right: right.copy(alloc)?,
            }),
            Cond::KeyCompare { op, key } => Ok(Cond::KeyCompare {
                op: *op,
                key: key.copy(alloc)?,
            }),
            Cond::IsNull { expr, negated } => Ok(Cond::IsNull {
                expr: expr.copy(alloc)?,
                negated: *negated,
            }),
            Cond::Not(operand) => Ok(Cond::Not(Boxed::new(alloc, operand.get().copy(alloc)?)?)),
            Cond::And(left, right) => Ok(Cond::And(
                Boxed::new(alloc, left.get().copy(alloc)?)?,
                Boxed::new(alloc, right.get().copy(alloc)?)?,
            )),
            Cond::Or(left, right) => Ok(Cond::Or(
                Boxed::new(alloc, left.get().copy(alloc)?)?,
                Boxed::new(alloc, right.get().copy(alloc)?)?,
            )),
        }
    }

    pub fn same(&self, other: &Cond) -> bool
        ensures { IsTrue result ↔ (self.now ≡ other.now) }
    {
        match (self, other) {
            (
                Cond::Compare { op, left, right },
                Cond::Compare {
                    op: other_op,
                    left: other_left,
                    right: other_right,
                },
            ) => op.same(other_op) && left.same(other_left) && right.same(other_right),
            (
                Cond::KeyCompare { op, key },
                Cond::KeyCompare {
                    op: other_op,
                    key: other_key,
                },
            ) => op.same(other_op) && key.same(other_key),
            (
                Cond::IsNull { expr, negated },
                Cond::IsNull {
                    expr: other_expr,
                    negated: other_negated,
                },
            ) => negated == other_negated && expr.same(other_expr),
            (Cond::Not(ours), Cond::Not(theirs)) => ours.get().same(theirs.get()),
            (Cond::And(left, right), Cond::And(other_left, other_right))
            | (Cond::Or(left, right), Cond::Or(other_left, other_right)) => {
                left.get().same(other_left.get()) && right.get().same(other_right.get())
            }
            _ => false,
        }
    }
}

/// The copy of a condition that may be left out.
pub(crate) fn copy_cond(alloc: Global, cond: &Option<Cond>) -> R<Option<Cond>>
    ensures { IfOk result (λ copy. copy ≡ cond.now) }
{
    match cond {
        None => Ok(None),
        Some(cond) => Ok(Some(cond.copy(alloc)?)),
    }
}

/// Whether two conditions that may be left out are equal.
pub(crate) fn same_cond(ours: &Option<Cond>, theirs: &Option<Cond>) -> bool
    ensures { IsTrue result ↔ (ours.now ≡ theirs.now) }
{
    match (ours, theirs) {
        (None, None) => true,
        (Some(ours), Some(theirs)) => ours.same(theirs),
        _ => false,
    }
}
