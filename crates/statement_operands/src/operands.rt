ghost use Rattle.std.specs.Prelude.{◌≡◌};
ghost use Rattle.statement_operands.specs.Trees.{cond_of, expr_of};
ghost use Rattle.statement_operands.specs.Operands.{paren_operand};

use ptc_statement::{Cond, Expr};
use row_types::Value;
use statement_reader::Facts;

/// An expression or a condition.
#[derive(Debug, Drop)]
pub enum Tree {
    Expr(Expr),
    Cond(Cond),
}

/// An expression or a condition that is read, and what the rules on kinds and heights ask of it. A tree that
/// would be more than 64 high is let go: a leaf stands for it.
#[derive(Debug, Drop)]
pub struct Operand {
    pub tree: Tree,
    pub facts: Facts,
}

/// An operand in parentheses that open at a place.
pub fn paren(place: u32, operand: Operand) -> Operand
    ensures { result ≡ paren_operand place operand }
{
    let Operand { tree, facts } = operand;
    Operand {
        tree,
        facts: facts.paren(place),
    }
}

impl Tree {
    /// The expression; where the tree is a condition, NULL.
    pub fn into_expr(self) -> Expr
        ensures { result ≡ expr_of self }
    {
        match self {
            Tree::Expr(expr) => expr,
            Tree::Cond(_) => Expr::Lit(Value::Null),
        }
    }

    /// The condition; where the tree is an expression, that it is NULL.
    pub fn into_cond(self) -> Cond
        ensures { result ≡ cond_of self }
    {
        match self {
            Tree::Expr(expr) => Cond::IsNull {
                expr,
                negated: false,
            },
            Tree::Cond(cond) => cond,
        }
    }
}
