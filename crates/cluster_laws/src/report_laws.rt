//! What the report's lines mean.
ghost use Rattle.std.specs.Prelude.{◌≡◌, ◌↔◌, List, IsTrue};
ghost use Rattle.row_types.specs.declared.values.Value.{Value};
ghost use Rattle.cluster_core.specs.Summary.{rows_equal};

/// A table is told as EQUAL exactly where the replica's rows are the source's.
pub fn equal_tables_have_the_same_rows()
    ensures { (rows others : List (List Value)) → (IsTrue (rows_equal rows others) ↔ (rows ≡ others)) }
{}
