ghost use Rattle.std.specs.Prelude.{◌≡◌, ◌≤◌, Some};
ghost use Rattle.std.specs.List.{AllByRecursion, slice_get};
ghost use Rattle.row_types.specs.Fit.{RowFits};
ghost use Rattle.row_types.specs.Faults.{IsShort};
ghost use Rattle.ptc_statement.specs.Fits.{FitsSchemas, StatementFits, WhereFits, CondFits, AssignmentFits, is_of_numbers, column_is};
ghost use Rattle.node_builders.specs.Asked.{When, IsNumberColumn, IsNumber, has_no_text, is_text};

use ptc_statement::{Assignment, Cond, Expr, Statement};
use row_types::{Column, ColumnKind, Row, Schema, Schemas, Value};

/// Whether a statement fits one of these schemas, as far as this looks: rows without texts, one
/// assignment of a number, and as condition a column compared with a number. False says nothing.
pub fn fits(schemas: &Schemas, statement: &Statement) -> bool
    ensures { When result (FitsSchemas schemas.now.tables statement.now) }
{
    match schemas.tables.get(statement.table()) {
        None => false,
        Some(schema) => {
            if fits_schema(schema, statement) {
                return true;
            }
            false
        }
    }
}

fn fits_schema(schema: &Schema, statement: &Statement) -> bool
    ensures { When result (StatementFits schema.now statement.now) }
{
    match statement {
        Statement::Insert { row, .. } => row_fits(schema, row),
        Statement::Replace { row, .. } => row_fits(schema, row),
        Statement::Delete { cond, .. } => where_fits(schema, cond),
        Statement::Update { sets, cond, .. } => {
            if !sets_fit(schema, sets.as_slice()) {
                return false;
            }
            if !where_fits(schema, cond) {
                return false;
            }
            true
        }
        Statement::LockRead { cond, .. } => where_fits(schema, cond),
        Statement::Check { .. } => true,
        Statement::SetMaster { .. } => true,
        Statement::ClearChecks { .. } => true,
    }
}

fn row_fits(schema: &Schema, row: &Row) -> bool
    ensures { When result (RowFits schema.now row.now) }
{
    if !is_short(schema, row) {
        return false;
    }
    match schema.check(row) {
        Ok(()) => true,
        Err(_) => false,
    }
}

#[tactic(auto, using(crate::proofs::AskedLemmas::no_text_short))]
fn is_short(schema: &Schema, row: &Row) -> bool
    ensures { When result (IsShort schema.now row.now) }
{
    if schema.columns.len() > 100 || row.len() > 100 {
        return false;
    }
    if !has_no_text(row.as_slice()) {
        return false;
    }
    true
}

fn has_no_text(values: &[Value]) -> bool
    ensures { result ≡ has_no_text values.now }
{
    let mut rest = values;
    while let Some((first, more)) = rest.split_first() {
        if is_text(first) {
            return false;
        }
        rest = more;
    }
    true
}

fn is_text(value: &Value) -> bool
    ensures { result ≡ is_text value.now }
{
    match value {
        Value::Null => false,
        Value::Int(_) => false,
        Value::Text(_) => true,
    }
}

fn where_fits(schema: &Schema, cond: &Option<Cond>) -> bool
    ensures { When result (WhereFits schema.now cond.now) }
{
    match cond {
        None => true,
        Some(cond) => cond_fits(schema, cond),
    }
}

#[tactic(auto, using(crate::proofs::AskedLemmas::compared_fits))]
fn cond_fits(schema: &Schema, cond: &Cond) -> bool
    ensures { When result (CondFits schema.now cond.now) }
{
    match cond {
        Cond::Compare { left, right, .. } => {
            if !is_number_column(schema, left) {
                return false;
            }
            if !is_number(right) {
                return false;
            }
            true
        }
        Cond::KeyCompare { .. } => false,
        Cond::IsNull { .. } => false,
        Cond::Not(_) => false,
        Cond::And(_, _) => false,
        Cond::Or(_, _) => false,
    }
}

fn is_number_column(schema: &Schema, expr: &Expr) -> bool
    ensures { When result (IsNumberColumn schema.now expr.now) }
{
    match expr {
        Expr::Cell(column) => {
            if has_numbers(schema, *column) {
                return true;
            }
            false
        }
        Expr::Lit(_) => false,
        Expr::Neg(_) => false,
        Expr::Add(_, _) => false,
        Expr::Sub(_, _) => false,
        Expr::Mul(_, _) => false,
    }
}

fn has_numbers(schema: &Schema, column: u32) -> bool
    ensures { result ≡ column_is is_of_numbers schema.now column }
{
    match schema.columns.as_slice().get(column as usize) {
        None => false,
        Some(found) => is_of_numbers(&found.kind),
    }
}

fn is_of_numbers(kind: &ColumnKind) -> bool
    ensures { result ≡ is_of_numbers kind.now }
{
    match kind {
        ColumnKind::Int => true,
        ColumnKind::BigInt => true,
        ColumnKind::Text { .. } => false,
    }
}

fn is_number(expr: &Expr) -> bool
    ensures { When result (IsNumber expr.now) }
{
    match expr {
        Expr::Lit(value) => {
            if is_text(value) {
                return false;
            }
            true
        }
        Expr::Cell(_) => false,
        Expr::Neg(_) => false,
        Expr::Add(_, _) => false,
        Expr::Sub(_, _) => false,
        Expr::Mul(_, _) => false,
    }
}

fn sets_fit(schema: &Schema, sets: &[Assignment]) -> bool
    ensures { When result (AllByRecursion (AssignmentFits schema.now) sets.now) }
{
    match sets.split_first() {
        None => false,
        Some((set, rest)) => {
            if !rest.is_empty() {
                return false;
            }
            if !set_fits(schema, set) {
                return false;
            }
            true
        }
    }
}

fn set_fits(schema: &Schema, set: &Assignment) -> bool
    ensures { When result (AssignmentFits schema.now set.now) }
{
    if set.column < schema.key_len as u32 {
        return false;
    }
    match schema.columns.as_slice().get(set.column as usize) {
        None => false,
        Some(column) => column_takes(schema, column, set),
    }
}

#[tactic(auto, using(crate::proofs::AskedLemmas::number_fits))]
fn column_takes(_schema: &Schema, column: &Column, set: &Assignment) -> bool
    requires behind_key { _schema.now.key_len ≤ set.now.column }
    requires found { slice_get _schema.now.columns set.now.column ≡ Some column.now }
    ensures { When result (AssignmentFits _schema.now set.now) }
{
    if !is_of_numbers(&column.kind) {
        return false;
    }
    if !is_number(&set.expr) {
        return false;
    }
    true
}
