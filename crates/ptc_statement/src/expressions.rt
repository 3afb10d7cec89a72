ghost use Rattle.std.specs.Prelude.{◌≡◌, ◌↔◌, IsTrue, IfOk};

use row_types::{R, Value};
use sqlite_items::Boxed;
use std::alloc::Global;

/// How two values are compared.
#[derive(Clone, Copy, Debug, PartialEq, Eq)]
pub enum Op {
    Eq,
    Ne,
    Lt,
    Le,
    Gt,
    Ge,
}

/// An expression over a row: a literal, the value of a column (counted from 0), or arithmetic.
#[derive(Debug, Drop)]
pub enum Expr {
    Lit(Value),
    Cell(u32),
    Neg(Boxed<Expr>),
    Add(Boxed<Expr>, Boxed<Expr>),
    Sub(Boxed<Expr>, Boxed<Expr>),
    Mul(Boxed<Expr>, Boxed<Expr>),
}

impl Op {
    pub fn copy(&self, _alloc: Global) -> R<Op>
        ensures { IfOk result (λ copy. copy ≡ self.now) }
    {
        Ok(*self)
    }

    pub fn same(&self, other: &Op) -> bool
        ensures { IsTrue result ↔ (self.now ≡ other.now) }
    {
        *self == *other
    }
}

impl Expr {
    pub fn copy(&self, alloc: Global) -> R<Expr>
        ensures { IfOk result (λ copy. copy ≡ self.now) }
    {
        match self {
            Expr::Lit(value) => Ok(Expr::Lit(value.copy(alloc)?)),
            Expr::Cell(column) => Ok(Expr::Cell(*column)),
            Expr::Neg(operand) => Ok(Expr::Neg(Boxed::new(alloc, operand.get().copy(alloc)?)?)),
            Expr::Add(left, right) => Ok(Expr::Add(
                Boxed::new(alloc, left.get().copy(alloc)?)?,
                Boxed::new(alloc, right.get().copy(alloc)?)?,
            )),
            Expr::Sub(left, right) => Ok(Expr::Sub(
                Boxed::new(alloc, left.get().copy(alloc)?)?,
                Boxed::new(alloc, right.get().copy(alloc)?)?,
            )),
            Expr::Mul(left, right) => Ok(Expr::Mul(
                Boxed::new(alloc, left.get().copy(alloc)?)?,
                Boxed::new(alloc, right.get().copy(alloc)?)?,
            )),
        }
    }

    pub fn same(&self, other: &Expr) -> bool
        ensures { IsTrue result ↔ (self.now ≡ other.now) }
    {
        match (self, other) {
            (Expr::Lit(ours), Expr::Lit(theirs)) => ours.same(theirs),
            (Expr::Cell(ours), Expr::Cell(theirs)) => ours == theirs,
            (Expr::Neg(ours), Expr::Neg(theirs)) => ours.get().same(theirs.get()),
            (Expr::Add(left, right), Expr::Add(other_left, other_right))
            | (Expr::Sub(left, right), Expr::Sub(other_left, other_right))
            | (Expr::Mul(left, right), Expr::Mul(other_left, other_right)) => {
                left.get().same(other_left.get()) && right.get().same(other_right.get())
            }
            _ => false,
        }
    }
}
