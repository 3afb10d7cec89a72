ghost use Rattle.std.specs.Prelude.{List, Option, ◌≡◌, true, false};
ghost use Rattle.row_types.specs.declared.values.Value.{Value};
ghost use Rattle.row_types.specs.declared.table_schema.Schema.{Schema};
ghost use Rattle.row_types.specs.Order.{has};
ghost use Rattle.row_types.specs.KeyRows.{Row, Rows};
ghost use Rattle.row_types.specs.Fit.{IsTable, key_of};
ghost use Rattle.ptc_statement.specs.declared.conditions.Cond.{Cond};
ghost use Rattle.ptc_statement.specs.declared.statements.Statement.{Statement};
ghost use Rattle.ptc_statement.specs.Meaning.{is_taken};
ghost use Rattle.ptc_statement.specs.Reach.{keys_where, reach_of};
ghost use Rattle.ptc_statement.specs.Effect.{effect, row_at, rows_after};
ghost use Rattle.ptc_statement.specs.Fits.{StatementFits};

/// A statement that fits leaves a table of a table, and there at each key what it makes of the row
/// at that key alone.
pub fn statements_act_key_by_key()
    ensures table { (schema : Schema) (statement : Statement) (rows : Rows)
        → StatementFits schema statement → IsTable schema rows
        → IsTable schema (rows_after schema statement rows) }
    ensures key_by_key { (schema : Schema) (statement : Statement) (rows : Rows) (key : List Value)
        → StatementFits schema statement → IsTable schema rows
        → row_at schema key (rows_after schema statement rows) ≡ effect schema statement key (row_at schema key rows) }
{}

/// Outside its reach a statement leaves the old row, or none.
pub fn statements_leave_what_is_out_of_reach()
    ensures { (schema : Schema) (statement : Statement) (key : List Value) (old : Option Row)
        → has (reach_of schema statement) key ≡ false → effect schema statement key old ≡ old }
{}

/// A condition narrows the keys without losing a row that meets it.
pub fn no_taken_row_is_out_of_reach()
    ensures { (schema : Schema) (where_true : Option Cond) (row : Row)
        → is_taken schema where_true row ≡ true → has (keys_where schema where_true) (key_of schema row) ≡ true }
{}
