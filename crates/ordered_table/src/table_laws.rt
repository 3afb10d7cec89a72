ghost use Rattle.std.specs.Prelude.{◌≡◌, ◌≢◌, ◌≤◌, ◌+◌, ℕ, List, None, Some, cond, take};
ghost use Rattle.row_types.specs.declared.values.Value.{Value};
ghost use Rattle.row_types.specs.declared.edges.Edge.{Edge};
ghost use Rattle.row_types.specs.declared.edges.Edge.TheVariants.{After};
ghost use Rattle.row_types.specs.declared.edges.Span.{Span};
ghost use Rattle.row_types.specs.declared.table_schema.Schema.{Schema};
ghost use Rattle.row_types.specs.Order.{has};
ghost use Rattle.row_types.specs.Fit.{RowFits, IsSchema, IsTable, with_row};
ghost use Rattle.row_types.specs.KeyRows.{HasKey, AreOrdered, row_at, put_row, without_key, rows_in, least_past, nth_past, greatest_before};
ghost use Rattle.ordered_table.specs.Neighbours.{IsLeastPast, IsNonePast, IsGreatestBefore, IsNoneBefore};

/// The row that is found at a key has that key.
pub fn a_row_is_found_at_its_key()
    ensures { (key_len : ℕ) (key row : List Value) (rows : List (List Value)) → row_at key_len key rows ≡ Some row → take key_len row ≡ key }
{}

/// A row that is put in stands at its key, every other key has what it had, and the rows still rise
/// by key.
pub fn a_put_acts_at_its_key()
    ensures ordered { (key_len : ℕ) (row : List Value) (rows : List (List Value))
        → HasKey key_len row → AreOrdered key_len rows → AreOrdered key_len (put_row key_len row rows) }
    ensures there { (key_len : ℕ) (row : List Value) (rows : List (List Value))
        → row_at key_len (take key_len row) (put_row key_len row rows) ≡ Some row }
    ensures elsewhere { (key_len : ℕ) (row key : List Value) (rows : List (List Value))
        → key ≢ take key_len row → row_at key_len key (put_row key_len row rows) ≡ row_at key_len key rows }
{}

/// No row stands at a key that is taken away, every other key has what it had, and the rows still
/// rise by key.
pub fn a_removal_acts_at_its_key()
    ensures ordered { (key_len : ℕ) (key : List Value) (rows : List (List Value))
        → AreOrdered key_len rows → AreOrdered key_len (without_key key_len key rows) }
    ensures gone { (key_len : ℕ) (key : List Value) (rows : List (List Value)) → row_at key_len key (without_key key_len key rows) ≡ None }
    ensures elsewhere { (key_len : ℕ) (key other : List Value) (rows : List (List Value))
        → other ≢ key → row_at key_len other (without_key key_len key rows) ≡ row_at key_len other rows }
{}

/// The rows of a span are, at each of its keys, those of the table, and there are no others; they rise
/// by key.
pub fn a_span_has_its_rows()
    ensures ordered { (key_len : ℕ) (span : Span) (rows : List (List Value)) → AreOrdered key_len rows → AreOrdered key_len (rows_in key_len span rows) }
    ensures rows { (key_len : ℕ) (span : Span) (key : List Value) (rows : List (List Value))
        → row_at key_len key (rows_in key_len span rows) ≡ cond (has span key) (row_at key_len key rows) None }
{}

/// The next key is the table's least past the edge; where there is none, no key of the table is past
/// the edge.
pub fn the_next_key_is_the_least_past()
    ensures some { (key_len : ℕ) (edge : Edge) (key : List Value) (rows : List (List Value))
        → AreOrdered key_len rows → least_past key_len edge rows ≡ Some key → IsLeastPast key_len edge rows key }
    ensures none { (key_len : ℕ) (edge : Edge) (rows : List (List Value)) → least_past key_len edge rows ≡ None → IsNonePast key_len edge rows }
{}

/// The previous key is the table's greatest before the edge; where there is none, no key of the table
/// is before the edge.
pub fn the_previous_key_is_the_greatest_before()
    ensures some { (key_len : ℕ) (edge : Edge) (key : List Value) (rows : List (List Value))
        → AreOrdered key_len rows → greatest_before key_len edge rows ≡ Some key → IsGreatestBefore key_len edge rows key }
    ensures none { (key_len : ℕ) (edge : Edge) (rows : List (List Value)) → greatest_before key_len edge rows ≡ None → IsNoneBefore key_len edge rows }
{}

/// The first key past an edge is the next one, and each further is the next past the one before it;
/// where there is no n-th, there is no further one.
pub fn keys_past_an_edge_are_counted_in_order()
    ensures first { (key_len : ℕ) (edge : Edge) (rows : List (List Value)) → nth_past key_len edge 1 rows ≡ least_past key_len edge rows }
    ensures further { (key_len : ℕ) (edge : Edge) (n : ℕ) (key : List Value) (rows : List (List Value))
        → AreOrdered key_len rows → 1 ≤ n → nth_past key_len edge n rows ≡ Some key
        → nth_past key_len edge (n + 1) rows ≡ least_past key_len (After key) rows }
    ensures end { (key_len : ℕ) (edge : Edge) (n : ℕ) (rows : List (List Value))
        → 1 ≤ n → nth_past key_len edge n rows ≡ None → nth_past key_len edge (n + 1) rows ≡ None }
{}

/// Rows by rising key that have the same row, or none, at each key are the same rows.
pub fn rows_are_what_they_have_at_each_key()
    ensures { (key_len : ℕ) (ours theirs : List (List Value)) → AreOrdered key_len ours → AreOrdered key_len theirs
        → ((key : List Value) → row_at key_len key ours ≡ row_at key_len key theirs) → ours ≡ theirs }
{}

/// The rows of a table of a schema rise by the schema's key, each has its key, and putting one in is the
/// same whether said by the schema or by its key.
pub fn rows_of_a_schema_are_ordered()
    ensures ordered { (schema : Schema) (rows : List (List Value)) → IsSchema schema → IsTable schema rows → AreOrdered schema.key_len rows }
    ensures key { (schema : Schema) (row : List Value) → IsSchema schema → RowFits schema row → HasKey schema.key_len row }
    ensures put { (schema : Schema) (row : List Value) (rows : List (List Value)) → with_row schema row rows ≡ put_row schema.key_len row rows }
{}
