//! How expressions and conditions are written.
ghost use Rattle.std.specs.Prelude.{◌≡◌, ℕ, ◌&&◌, ◌||◌, not, take, List, [], OnOk};
ghost use Rattle.std.specs.List.{slice_get};
ghost use Rattle.std.specs.Option.{option_map_or};
ghost use Rattle.row_types.specs.declared.table_schema.Schema.{Schema};
ghost use Rattle.statement_text.specs.ConditionTexts.{is_from_zero, opening, closing, enclosed, operand_text, text_after_sign, text_left_of_and, text_left_of_or, text_on_the_right, expr_written, expr_text, op_text, null_test_text, names_on, names_text, key_columns_text, cond_written, cond_text};
ghost use Rattle.statement_text.specs.ConditionTexts.{column_name as column_name_in};
ghost use Rattle.statement_text.specs.Written.{Appended};

use crate::writers::Writer;
use ptc_statement::{Cond, Expr, Op};
use row_types::{Column, R, SchemaList, Value};

/// The name of a column of a table; empty where there is no such column.
#[tactic(auto, unfolding(crate::specs::ConditionTexts::column_name))]
fn column_name(schemas: &SchemaList, table: usize, column: usize) -> &[u8]
    ensures { result.now ≡ column_name_in schemas.now table column }
{
    match schemas.as_slice().get(table) {
        None => &[],
        Some(schema) => match schema.columns.as_slice().get(column) {
            None => &[],
            Some(found) => found.name.as_slice(),
        },
    }
}

/// The key columns of a table, none where there is no such table.
fn key_columns(schemas: &SchemaList, table: u32) -> &[Column]
    ensures { result.now ≡ option_map_or (λ (schema : Schema). take schema.key_len schema.columns) (slice_get schemas.now table) [] }
{
    match schemas.get(table) {
        None => &[],
        Some(schema) => {
            let columns = schema.columns.as_slice();
            if columns.len() <= schema.key_len as usize {
                return columns;
            }
            columns.split_at(schema.key_len as usize).0
        }
    }
}

/// Whether an expression is a literal or a column.
fn is_leaf(expr: &Expr) -> bool
    ensures { (schemas : List Schema) (table : ℕ) → result ≡ (expr_written schemas table expr.now).is_leaf }
{
    matches!(expr, Expr::Lit(_) | Expr::Cell(_))
}

/// Whether an expression stands bare after a sign: a number from 0 on would be read with it.
fn is_bare_after_sign(expr: &Expr) -> bool
    ensures { (schemas : List Schema) (table : ℕ) → result ≡ (expr_written schemas table expr.now).is_leaf && not (expr_written schemas table expr.now).from_zero }
{
    match expr {
        Expr::Lit(value) => !is_number_from_zero(value),
        Expr::Cell(_) => true,
        _ => false,
    }
}

fn is_number_from_zero(value: &Value) -> bool
    ensures { result ≡ is_from_zero value.now }
{
    match value {
        Value::Int(number) => *number >= 0,
        _ => false,
    }
}

/// Whether a condition is an AND or an OR.
fn is_either(cond: &Cond) -> bool
    ensures { (schemas : List Schema) (table : ℕ) → result ≡ (cond_written schemas table cond.now).is_and || (cond_written schemas table cond.now).is_or }
{
    matches!(cond, Cond::And(_, _) | Cond::Or(_, _))
}

fn is_and(cond: &Cond) -> bool
    ensures { (schemas : List Schema) (table : ℕ) → result ≡ (cond_written schemas table cond.now).is_and }
{
    matches!(cond, Cond::And(_, _))
}

fn is_or(cond: &Cond) -> bool
    ensures { (schemas : List Schema) (table : ℕ) → result ≡ (cond_written schemas table cond.now).is_or }
{
    matches!(cond, Cond::Or(_, _))
}

impl<'a> Writer<'a> {
    pub(crate) fn push_column_name(
        &mut self,
        schemas: &SchemaList,
        table: u32,
        column: u32,
    ) -> R<()>
        ensures { OnOk result (Appended (column_name_in schemas.now table column) self.old self.new) }
    {
        self.push_bytes(column_name(schemas, table as usize, column as usize))
    }

    #[tactic(auto, unfolding(crate::specs::ConditionTexts::opening))]
    fn push_opening(&mut self, bare: bool) -> R<()>
        ensures { OnOk result (Appended (opening bare) self.old self.new) }
    {
        if bare {
            return Ok(());
        }
        self.push_bytes(b"(")
    }

    #[tactic(auto, unfolding(crate::specs::ConditionTexts::closing))]
    fn push_closing(&mut self, bare: bool) -> R<()>
        ensures { OnOk result (Appended (closing bare) self.old self.new) }
    {
        if bare {
            return Ok(());
        }
        self.push_bytes(b")")
    }

    #[cycle(exprs)]
    pub(crate) fn push_expr(&mut self, schemas: &SchemaList, table: u32, expr: &Expr) -> R<()>
        ensures { OnOk result (Appended (expr_text schemas.now table expr.now) self.old self.new) }
    {
        match expr {
            Expr::Lit(value) => self.push_value(value),
            Expr::Cell(column) => self.push_column_name(schemas, table, *column),
            Expr::Neg(operand) => {
                self.push_bytes(b"-")?;
                self.push_after_sign(schemas, table, operand.get())
            }
            Expr::Add(left, right) => {
                self.push_operand(schemas, table, left.get())?;
                self.push_bytes(b" + ")?;
                self.push_operand(schemas, table, right.get())
            }
            Expr::Sub(left, right) => {
                self.push_operand(schemas, table, left.get())?;
                self.push_bytes(b" - ")?;
                self.push_operand(schemas, table, right.get())
            }
            Expr::Mul(left, right) => {
                self.push_operand(schemas, table, left.get())?;
                self.push_bytes(b" * ")?;
                self.push_operand(schemas, table, right.get())
            }
        }
    }

    /// An operand, in parentheses unless it is a literal or a column.
    #[cycle(exprs)]
    fn push_operand(&mut self, schemas: &SchemaList, table: u32, operand: &Expr) -> R<()>
        ensures { OnOk result (Appended (operand_text (expr_written schemas.now table operand.now)) self.old self.new) }
    {
        self.push_enclosed(schemas, table, operand, is_leaf(operand))
    }

    #[cycle(exprs)]
    fn push_after_sign(&mut self, schemas: &SchemaList, table: u32, operand: &Expr) -> R<()>
        ensures { OnOk result (Appended (text_after_sign (expr_written schemas.now table operand.now)) self.old self.new) }
    {
        self.push_enclosed(schemas, table, operand, is_bare_after_sign(operand))
    }

    /// An expression in parentheses, unless it stands bare.
    #[cycle(exprs)]
    fn push_enclosed(&mut self, schemas: &SchemaList, table: u32, expr: &Expr, bare: bool) -> R<()>
        ensures { OnOk result (Appended (enclosed bare (expr_text schemas.now table expr.now)) self.old self.new) }
    {
        self.push_opening(bare)?;
        self.push_expr(schemas, table, expr)?;
        self.push_closing(bare)
    }

    #[tactic(auto, unfolding(crate::specs::ConditionTexts::op_text))]
    fn push_op(&mut self, op: Op) -> R<()>
        ensures { OnOk result (Appended (op_text op) self.old self.new) }
    {
        match op {
            Op::Eq => self.push_bytes(b" = "),
            Op::Ne => self.push_bytes(b" <> "),
            Op::Lt => self.push_bytes(b" < "),
            Op::Le => self.push_bytes(b" <= "),
            Op::Gt => self.push_bytes(b" > "),
            Op::Ge => self.push_bytes(b" >= "),
        }
    }

    #[tactic(auto, unfolding(crate::specs::ConditionTexts::null_test_text))]
    fn push_null_test(&mut self, negated: bool) -> R<()>
        ensures { OnOk result (Appended (null_test_text negated) self.old self.new) }
    {
        if negated {
            return self.push_bytes(b" IS NOT NULL");
        }
        self.push_bytes(b" IS NULL")
    }

    /// The names but the first, each after a comma.
    fn push_later_names(&mut self, columns: &[Column]) -> R<()>
        ensures { OnOk result (Appended (names_on columns.now) self.old self.new) }
    {
        for column in columns {
            self.push_bytes(b", ")?;
            self.push_bytes(column.name.as_slice())?;
        }
        Ok(())
    }

    fn push_names(&mut self, columns: &[Column]) -> R<()>
        ensures { OnOk result (Appended (names_text columns.now) self.old self.new) }
    {
        match columns.split_first() {
            None => Ok(()),
            Some((first, rest)) => {
                self.push_bytes(first.name.as_slice())?;
                self.push_later_names(rest)
            }
        }
    }

    /// The key columns of a table, in parentheses.
    #[tactic(auto, unfolding(crate::specs::ConditionTexts::key_columns_text))]
    fn push_key_columns(&mut self, schemas: &SchemaList, table: u32) -> R<()>
        ensures { OnOk result (Appended (key_columns_text schemas.now table) self.old self.new) }
    {
        self.push_bytes(b"(")?;
        self.push_names(key_columns(schemas, table))?;
        self.push_bytes(b")")
    }

    #[cycle(conditions)]
    pub(crate) fn push_cond(&mut self, schemas: &SchemaList, table: u32, cond: &Cond) -> R<()>
        ensures { OnOk result (Appended (cond_text schemas.now table cond.now) self.old self.new) }
    {
        match cond {
            Cond::Compare { op, left, right } => {
                self.push_expr(schemas, table, left)?;
                self.push_op(*op)?;
                self.push_expr(schemas, table, right)
            }
            Cond::KeyCompare { op, key } => {
                self.push_key_columns(schemas, table)?;
                self.push_op(*op)?;
                self.push_tuple(key.as_slice())
            }
            Cond::IsNull { expr, negated } => {
                self.push_expr(schemas, table, expr)?;
                self.push_null_test(*negated)
            }
            Cond::Not(operand) => {
                self.push_bytes(b"NOT ")?;
                self.push_joined(schemas, table, operand.get(), false)
            }
            Cond::And(left, right) => {
                self.push_left_of_and(schemas, table, left.get())?;
                self.push_bytes(b" AND ")?;
                self.push_on_the_right(schemas, table, right.get())
            }
            Cond::Or(left, right) => {
                self.push_left_of_or(schemas, table, left.get())?;
                self.push_bytes(b" OR ")?;
                self.push_on_the_right(schemas, table, right.get())
            }
        }
    }

    #[cycle(conditions)]
    fn push_left_of_and(&mut self, schemas: &SchemaList, table: u32, left: &Cond) -> R<()>
        ensures { OnOk result (Appended (text_left_of_and (cond_written schemas.now table left.now)) self.old self.new) }
    {
        self.push_joined(schemas, table, left, !is_or(left))
    }

    #[cycle(conditions)]
    fn push_left_of_or(&mut self, schemas: &SchemaList, table: u32, left: &Cond) -> R<()>
        ensures { OnOk result (Appended (text_left_of_or (cond_written schemas.now table left.now)) self.old self.new) }
    {
        self.push_joined(schemas, table, left, !is_and(left))
    }

    #[cycle(conditions)]
    fn push_on_the_right(&mut self, schemas: &SchemaList, table: u32, right: &Cond) -> R<()>
        ensures { OnOk result (Appended (text_on_the_right (cond_written schemas.now table right.now)) self.old self.new) }
    {
        self.push_joined(schemas, table, right, !is_either(right))
    }

    /// A condition in parentheses, unless it stands bare.
    #[cycle(conditions)]
    fn push_joined(&mut self, schemas: &SchemaList, table: u32, cond: &Cond, bare: bool) -> R<()>
        ensures { OnOk result (Appended (enclosed bare (cond_text schemas.now table cond.now)) self.old self.new) }
    {
        self.push_opening(bare)?;
        self.push_cond(schemas, table, cond)?;
        self.push_closing(bare)
    }
}
