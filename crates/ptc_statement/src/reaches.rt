ghost use Rattle.std.specs.Prelude.{◌≡◌, [], ◌∷◌, Some, IfOk};
ghost use Rattle.std.specs.Option.{option_copied};
ghost use Rattle.row_types.specs.Order.{all_keys};
ghost use Rattle.ptc_statement.specs.Reach.{literal_of, is_first_column, keys_by, keys_of_value, keys_of_column, keys_compared, keys_met, keys_where, reach_of};
ghost use Rattle.ptc_statement.specs.Reach.{exchanged as exchanged_sign, just_key as span_of_key};

use crate::conditions::Cond;
use crate::expressions::{Expr, Op};
use crate::statements::Statement;
use row_types::{Edge, Key, R, Schema, Span, Value};
use std::alloc::Global;

/// The keys that a statement walks: those of its row, or those that its condition's comparisons of the
/// whole key with literals leave. Source: MySQL Reference Manual, "Range Optimization".
pub fn reach(alloc: Global, statement: &Statement, schema: &Schema) -> R<Span>
    ensures { IfOk result (λ span. span ≡ reach_of schema.now statement.now) }
{
    match statement {
        Statement::Insert { row, .. } | Statement::Replace { row, .. } => {
            just_key(alloc, schema.key_values(row))
        }
        Statement::Delete { cond, .. } | Statement::Update { cond, .. } => {
            keys_taken(alloc, schema, cond)
        }
        Statement::LockRead { span, cond, .. } => {
            span.meet(alloc, &keys_taken(alloc, schema, cond)?)
        }
        Statement::Check { span, .. } => span.copy(alloc),
        Statement::SetMaster { .. } | Statement::ClearChecks { .. } => Ok(Span {
            lo: Edge::Low,
            hi: Edge::Low,
        }),
    }
}

/// The span of one key.
fn just_key(alloc: Global, values: &[Value]) -> R<Span>
    ensures { IfOk result (λ span. span ≡ span_of_key values.now) }
{
    Ok(Span {
        lo: Edge::Before(Key::from_values(alloc, values)?),
        hi: Edge::After(Key::from_values(alloc, values)?),
    })
}

/// The keys that a condition leaves, or all.
fn keys_taken(alloc: Global, schema: &Schema, cond: &Option<Cond>) -> R<Span>
    ensures { IfOk result (λ span. span ≡ keys_where schema.now cond.now) }
{
    match cond {
        None => Ok(Span::whole()),
        Some(cond) => cond.keys(alloc, schema),
    }
}

impl Cond {
    /// The keys that the condition leaves: a key that is none of them never meets it.
    fn keys(&self, alloc: Global, schema: &Schema) -> R<Span>
        ensures { IfOk result (λ span. span ≡ keys_met schema.now self.now) }
    {
        match self {
            Cond::Compare { op, left, right } => compared_keys(alloc, schema, *op, left, right),
            Cond::KeyCompare { op, key } => op.keys(alloc, key.as_slice()),
            Cond::And(left, right) => {
                let ours = left.get().keys(alloc, schema)?;
                ours.meet(alloc, &right.get().keys(alloc, schema)?)
            }
            Cond::IsNull { .. } | Cond::Not(_) | Cond::Or(_, _) => Ok(Span::whole()),
        }
    }
}

fn compared_keys(alloc: Global, schema: &Schema, op: Op, left: &Expr, right: &Expr) -> R<Span>
    ensures { IfOk result (λ span. span ≡ keys_compared schema.now op left.now right.now) }
{
    if schema.key_len == 1 {
        return column_keys(alloc, op, left, right);
    }
    Ok(Span::whole())
}

/// The keys of one column that a comparison leaves, either way round.
fn column_keys(alloc: Global, op: Op, left: &Expr, right: &Expr) -> R<Span>
    ensures { IfOk result (λ span. span ≡ keys_of_column op left.now right.now) }
{
    if left.is_first_column() {
        return literal_keys(alloc, op, right.literal());
    }
    if right.is_first_column() {
        return literal_keys(alloc, op.exchanged(), left.literal());
    }
    Ok(Span::whole())
}

/// The keys of one value that stand so to a literal.
fn literal_keys(alloc: Global, op: Op, literal: Option<&Value>) -> R<Span>
    ensures { IfOk result (λ span. span ≡ keys_of_value op (option_copied literal.entry)) }
{
    match literal {
        None => Ok(Span::whole()),
        Some(value) => match value {
            Value::Null => Ok(Span::whole()),
            Value::Int(_) | Value::Text(_) => value_keys(alloc, op, value),
        },
    }
}

fn value_keys(alloc: Global, op: Op, value: &Value) -> R<Span>
    ensures { IfOk result (λ span. span ≡ keys_by op (value.now ∷ [])) }
{
    let mut key = Key::new(alloc);
    key.push(value.copy(alloc)?)?;
    op.keys(alloc, key.as_slice())
}

impl Expr {
    /// The value, where the expression is a literal.
    fn literal(&self) -> Option<&Value>
        ensures { option_copied result ≡ literal_of self.now }
    {
        match self {
            Expr::Lit(value) => Some(value),
            _ => None,
        }
    }

    fn is_first_column(&self) -> bool
        ensures { result ≡ is_first_column self.now }
    {
        match self {
            Expr::Cell(column) => *column == 0,
            _ => false,
        }
    }
}

impl Op {
    /// The sign with its sides exchanged.
    fn exchanged(self) -> Op
        ensures { result ≡ exchanged_sign self }
    {
        match self {
            Op::Eq => Op::Eq,
            Op::Ne => Op::Ne,
            Op::Lt => Op::Gt,
            Op::Le => Op::Ge,
            Op::Gt => Op::Lt,
            Op::Ge => Op::Le,
        }
    }

    /// The keys that stand so to this one.
    fn keys(self, alloc: Global, values: &[Value]) -> R<Span>
        ensures { IfOk result (λ span. span ≡ keys_by self values.now) }
    {
        match self {
            Op::Eq => just_key(alloc, values),
            Op::Ne => Ok(Span::whole()),
            Op::Lt => Ok(Span {
                lo: Edge::Low,
                hi: Edge::Before(Key::from_values(alloc, values)?),
            }),
            Op::Le => Ok(Span {
                lo: Edge::Low,
                hi: Edge::After(Key::from_values(alloc, values)?),
            }),
            Op::Gt => Ok(Span {
                lo: Edge::After(Key::from_values(alloc, values)?),
                hi: Edge::High,
            }),
            Op::Ge => Ok(Span {
                lo: Edge::Before(Key::from_values(alloc, values)?),
                hi: Edge::High,
            }),
        }
    }
}
