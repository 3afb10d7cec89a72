ghost use Rattle.std.specs.Prelude.{◌≡◌, IfOk};
ghost use Rattle.statement_grammar.specs.Terms.{math_expr as the_math, sign_term, two_term};
ghost use Rattle.statement_operands.specs.Trees.{term_of, tree_of};
ghost use Rattle.statement_operands.specs.Operands.{leaf_for as the_leaf, no_cond as bare_cond, nullness_operand, range_operand, range_term, sign_operand, two_operand};

use crate::operands::{Operand, Tree};
use ptc_statement::{Cond, Expr, Op};
use row_types::{R, Value};
use sqlite_items::Boxed;
use statement_reader::{Facts, MOST_HEIGHT};
use statement_tokens::{Math, Token, Word};
use std::alloc::Global;

fn no_cond() -> Tree
    ensures { result ≡ bare_cond }
{
    Tree::Cond(Cond::IsNull {
        expr: Expr::Lit(Value::Null),
        negated: false,
    })
}

/// A leaf of the sort that the word gives.
fn leaf_for(word: &Word) -> Tree
    ensures { result ≡ the_leaf word.now }
{
    match word {
        Word::Not | Word::And | Word::Or | Word::Compare(_) => no_cond(),
        _ => Tree::Expr(Expr::Lit(Value::Null)),
    }
}

fn sign_tree(alloc: Global, word: &Word, tree: Tree) -> R<Tree>
    ensures { IfOk result (λ it. it ≡ tree_of (sign_term word.now (term_of tree))) }
{
    match word {
        Word::Not => Ok(Tree::Cond(Cond::Not(Boxed::new(alloc, tree.into_cond())?))),
        _ => Ok(Tree::Expr(Expr::Neg(Boxed::new(alloc, tree.into_expr())?))),
    }
}

/// NOT or `-` before an operand.
pub fn sign(alloc: Global, token: &Token, operand: Operand) -> R<Operand>
    ensures { IfOk result (λ it. it ≡ sign_operand token.now.word token.now.place operand) }
{
    let Operand { tree, facts: inner } = operand;
    let facts = Facts::sign(token, inner);
    if facts.height > MOST_HEIGHT {
        return Ok(Operand {
            tree: leaf_for(&token.word),
            facts,
        });
    }
    let tree = sign_tree(alloc, &token.word, tree)?;
    Ok(Operand { tree, facts })
}

fn math_expr(alloc: Global, math: Math, left: Expr, right: Expr) -> R<Expr>
    ensures { IfOk result (λ expr. expr ≡ the_math math left right) }
{
    let left = Boxed::new(alloc, left)?;
    let right = Boxed::new(alloc, right)?;
    match math {
        Math::Plus => Ok(Expr::Add(left, right)),
        Math::Minus => Ok(Expr::Sub(left, right)),
        Math::Times => Ok(Expr::Mul(left, right)),
    }
}

fn both(alloc: Global, left: Cond, right: Cond) -> R<Tree>
    ensures { IfOk result (λ it. it ≡ tree_of (two_term Word.And (term_of (Tree.Cond left)) (term_of (Tree.Cond right)))) }
{
    let left = Boxed::new(alloc, left)?;
    let right = Boxed::new(alloc, right)?;
    Ok(Tree::Cond(Cond::And(left, right)))
}

fn either(alloc: Global, left: Cond, right: Cond) -> R<Tree>
    ensures { IfOk result (λ it. it ≡ tree_of (two_term Word.Or (term_of (Tree.Cond left)) (term_of (Tree.Cond right)))) }
{
    let left = Boxed::new(alloc, left)?;
    let right = Boxed::new(alloc, right)?;
    Ok(Tree::Cond(Cond::Or(left, right)))
}

fn two_tree(alloc: Global, word: &Word, left: Tree, right: Tree) -> R<Tree>
    ensures { IfOk result (λ it. it ≡ tree_of (two_term word.now (term_of left) (term_of right))) }
{
    match word {
        Word::Math(math) => {
            let expr = math_expr(alloc, *math, left.into_expr(), right.into_expr())?;
            Ok(Tree::Expr(expr))
        }
        Word::Compare(op) => Ok(Tree::Cond(Cond::Compare {
            op: *op,
            left: left.into_expr(),
            right: right.into_expr(),
        })),
        Word::And => {
            let tree = both(alloc, left.into_cond(), right.into_cond())?;
            Ok(tree)
        }
        Word::Or => {
            let tree = either(alloc, left.into_cond(), right.into_cond())?;
            Ok(tree)
        }
        _ => Ok(left),
    }
}

/// Two operands and the word between them.
pub fn two(alloc: Global, left: Operand, word: &Word, right: Operand) -> R<Operand>
    ensures { IfOk result (λ it. it ≡ two_operand left word.now right) }
{
    let Operand {
        tree: left,
        facts: before,
    } = left;
    let Operand {
        tree: right,
        facts: behind,
    } = right;
    let facts = before.two(word, behind);
    if facts.height > MOST_HEIGHT {
        return Ok(Operand {
            tree: leaf_for(word),
            facts,
        });
    }
    let tree = two_tree(alloc, word, left, right)?;
    Ok(Operand { tree, facts })
}

fn range_tree(alloc: Global, value: Expr, low: Expr, high: Expr) -> R<Tree>
    ensures { IfOk result (λ it. it ≡ range_term value low high) }
{
    let left = value.copy(alloc)?;
    let above = Boxed::new(
        alloc,
        Cond::Compare {
            op: Op::Ge,
            left,
            right: low,
        },
    )?;
    let below = Boxed::new(
        alloc,
        Cond::Compare {
            op: Op::Le,
            left: value,
            right: high,
        },
    )?;
    Ok(Tree::Cond(Cond::And(above, below)))
}

/// BETWEEN: at least the lower end, and at most the upper.
pub fn range(alloc: Global, value: Operand, low: Operand, high: Operand) -> R<Operand>
    ensures { IfOk result (λ it. it ≡ range_operand value low high) }
{
    let Operand {
        tree: value,
        facts: of_value,
    } = value;
    let Operand {
        tree: low,
        facts: of_low,
    } = low;
    let Operand {
        tree: high,
        facts: of_high,
    } = high;
    let facts = of_value.range(of_low, of_high);
    if facts.height > MOST_HEIGHT {
        return Ok(Operand {
            tree: no_cond(),
            facts,
        });
    }
    let tree = range_tree(alloc, value.into_expr(), low.into_expr(), high.into_expr())?;
    Ok(Operand { tree, facts })
}

/// IS NULL, or, negated, IS NOT NULL.
pub fn nullness(operand: Operand, negated: bool) -> Operand
    ensures { result ≡ nullness_operand operand negated }
{
    let Operand { tree, facts: inner } = operand;
    let facts = inner.nullness();
    if facts.height > MOST_HEIGHT {
        return Operand {
            tree: no_cond(),
            facts,
        };
    }
    Operand {
        tree: Tree::Cond(Cond::IsNull {
            expr: tree.into_expr(),
            negated,
        }),
        facts,
    }
}
