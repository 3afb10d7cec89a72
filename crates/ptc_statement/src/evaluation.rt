ghost use Rattle.std.specs.Prelude.{◌≡◌, ◌+ℤ◌, ◌-ℤ◌, ◌*ℤ◌, slice_index_or, IfOk};
ghost use Rattle.std.specs.Int.{w64, saturate_signed};
ghost use Rattle.std.specs.Option.{option_copied};
ghost use Rattle.ptc_statement.specs.Meaning.{value_of, meets, compared, opposite, both, either, null_test, truth_of, is_true, is_taken};
ghost use Rattle.ptc_statement.specs.Numbers.{number_in, number_value, IsHeld, opposite_number, combined};

use crate::conditions::Cond;
use crate::expressions::{Expr, Op};
use row_types::{R, Row, Schema, Value, compare_values};
use std::alloc::Global;
use std::cmp::Ordering;

impl Expr {
    /// The value over a row: arithmetic in 128 bits, each result clipped to 64; NULL with anything is
    /// NULL. Source: MySQL Reference Manual, "Arithmetic Operators" and "Working with NULL Values";
    /// that results are clipped is this project's own.
    pub fn value(&self, alloc: Global, row: &Row) -> R<Value>
        ensures { IfOk result (λ value. value ≡ value_of row.now self.now) }
    {
        match self.held(row) {
            Some(value) => value.copy(alloc),
            None => Ok(self.calculated(row)),
        }
    }

    /// The value where the expression is a literal or the row has the column, so that it need not be
    /// copied.
    #[tactic(auto, using(crate::proofs::NumberLemmas::negated_is_number, crate::proofs::NumberLemmas::calculated_is_number))]
    fn held<'a>(&'a self, row: &'a Row) -> Option<&'a Value>
        ensures { IsHeld row.now self.now (option_copied result) }
    {
        match self {
            Expr::Lit(value) => Some(value),
            Expr::Cell(column) => row.as_slice().get(*column as usize),
            Expr::Neg(_) | Expr::Add(_, _) | Expr::Sub(_, _) | Expr::Mul(_, _) => None,
        }
    }

    /// The number over a row as a value, which takes no memory.
    fn calculated(&self, row: &Row) -> Value
        ensures { result ≡ number_value (number_in (value_of row.now self.now)) }
    {
        match self.number(row) {
            None => Value::Null,
            Some(number) => Value::Int(number),
        }
    }

    /// The number over a row, none for NULL and for texts.
    #[tactic(auto, using(crate::proofs::NumberLemmas::number_of_negated, crate::proofs::NumberLemmas::number_of_calculated))]
    fn number(&self, row: &Row) -> Option<i64>
        ensures { result ≡ number_in (value_of row.now self.now) }
    {
        match self {
            Expr::Lit(value) => number_of(value),
            Expr::Cell(column) => cell_number(row, *column),
            Expr::Neg(operand) => negative(operand.get().number(row)),
            Expr::Add(left, right) => sum(left.get().number(row), right.get().number(row)),
            Expr::Sub(left, right) => difference(left.get().number(row), right.get().number(row)),
            Expr::Mul(left, right) => product(left.get().number(row), right.get().number(row)),
        }
    }
}

fn number_of(value: &Value) -> Option<i64>
    ensures { result ≡ number_in value.now }
{
    match value {
        Value::Int(number) => Some(*number),
        Value::Null | Value::Text(_) => None,
    }
}

/// The number of a column, none where the row hasn't the column.
fn cell_number(row: &Row, column: u32) -> Option<i64>
    ensures { result ≡ number_in (slice_index_or row.now column Value.Null) }
{
    number_of(row.as_slice().get(column as usize)?)
}

fn clipped(number: i128) -> i64
    ensures { result ≡ saturate_signed w64 number }
{
    number.clamp(-9223372036854775808, 9223372036854775807) as i64
}

fn negative(operand: Option<i64>) -> Option<i64>
    ensures { result ≡ opposite_number operand }
{
    Some(clipped(-(operand? as i128)))
}

fn sum(left: Option<i64>, right: Option<i64>) -> Option<i64>
    ensures { result ≡ combined ◌+ℤ◌ left right }
{
    Some(clipped(wide_sum(left?, right?)))
}

fn difference(left: Option<i64>, right: Option<i64>) -> Option<i64>
    ensures { result ≡ combined ◌-ℤ◌ left right }
{
    Some(clipped(wide_difference(left?, right?)))
}

fn product(left: Option<i64>, right: Option<i64>) -> Option<i64>
    ensures { result ≡ combined ◌*ℤ◌ left right }
{
    Some(clipped(wide_product(left?, right?)))
}

fn wide_sum(left: i64, right: i64) -> i128
    ensures { result ≡ left +ℤ right }
{
    left as i128 + right as i128
}

fn wide_difference(left: i64, right: i64) -> i128
    ensures { result ≡ left -ℤ right }
{
    left as i128 - right as i128
}

fn wide_product(left: i64, right: i64) -> i128
    ensures { result ≡ left *ℤ right }
{
    left as i128 * right as i128
}

impl Op {
    /// Whether two sides in this order meet the sign.
    pub fn is_met(self, ordering: Ordering) -> bool
        ensures { result ≡ meets self ordering }
    {
        match self {
            Op::Eq => ordering.is_eq(),
            Op::Ne => ordering.is_ne(),
            Op::Lt => ordering.is_lt(),
            Op::Le => ordering.is_le(),
            Op::Gt => ordering.is_gt(),
            Op::Ge => ordering.is_ge(),
        }
    }
}

impl Cond {
    /// The truth over a row, none where it is unknown. It takes no memory.
    /// Source: MySQL Reference Manual, "Working with NULL Values" and "Logical Operators".
    pub fn truth(&self, schema: &Schema, row: &Row) -> Option<bool>
        ensures { result ≡ truth_of schema.now row.now self.now }
    {
        match self {
            Cond::Compare { op, left, right } => compared_sides(*op, left, right, row),
            Cond::KeyCompare { op, key } => Some(op.is_met(compare_values(
                schema.key_values(row),
                key.as_slice(),
            ))),
            Cond::IsNull { expr, negated } => Some(has_null(*negated, expr, row)),
            Cond::Not(operand) => not(operand.get().truth(schema, row)),
            Cond::And(left, right) => and(
                left.get().truth(schema, row),
                right.get().truth(schema, row),
            ),
            Cond::Or(left, right) => or(
                left.get().truth(schema, row),
                right.get().truth(schema, row),
            ),
        }
    }
}

fn compared_sides(op: Op, left: &Expr, right: &Expr, row: &Row) -> Option<bool>
    ensures { result ≡ compared op (value_of row.now left.now) (value_of row.now right.now) }
{
    match left.held(row) {
        Some(value) => compared_value(op, value, right, row),
        None => compared_value(op, &left.calculated(row), right, row),
    }
}

fn compared_value(op: Op, left: &Value, right: &Expr, row: &Row) -> Option<bool>
    ensures { result ≡ compared op left.now (value_of row.now right.now) }
{
    match right.held(row) {
        Some(value) => comparison(op, left, value),
        None => comparison(op, left, &right.calculated(row)),
    }
}

/// Whether the value of an expression is NULL or, negated, whether it isn't.
fn has_null(negated: bool, expr: &Expr, row: &Row) -> bool
    ensures { result ≡ null_test negated (value_of row.now expr.now) }
{
    match expr.held(row) {
        Some(value) => is_null(negated, value),
        None => is_null(negated, &expr.calculated(row)),
    }
}

fn comparison(op: Op, left: &Value, right: &Value) -> Option<bool>
    ensures { result ≡ compared op left.now right.now }
{
    match (left, right) {
        (Value::Null, _) | (_, Value::Null) => None,
        _ => Some(op.is_met(left.compare(right))),
    }
}

fn is_null(negated: bool, value: &Value) -> bool
    ensures { result ≡ null_test negated value.now }
{
    match value {
        Value::Null => !negated,
        _ => negated,
    }
}

fn not(operand: Option<bool>) -> Option<bool>
    ensures { result ≡ opposite operand }
{
    match operand {
        None => None,
        Some(truth) => Some(!truth),
    }
}

fn and(left: Option<bool>, right: Option<bool>) -> Option<bool>
    ensures { result ≡ both left right }
{
    match (left, right) {
        (Some(true), right) => right,
        (Some(false), _) | (_, Some(false)) => Some(false),
        _ => None,
    }
}

fn or(left: Option<bool>, right: Option<bool>) -> Option<bool>
    ensures { result ≡ either left right }
{
    match (left, right) {
        (Some(false), right) => right,
        (Some(true), _) | (_, Some(true)) => Some(true),
        _ => None,
    }
}

/// Whether a statement with this condition takes the row: where the condition is true, and where there
/// is none. It takes no memory.
pub fn takes(schema: &Schema, cond: &Option<Cond>, row: &Row) -> bool
    ensures { result ≡ is_taken schema.now cond.now row.now }
{
    match cond {
        None => true,
        Some(cond) => cond.truth(schema, row) == Some(true),
    }
}
