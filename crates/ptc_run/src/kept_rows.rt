//! The rows of the nodes as they are kept while a file is read.

ghost use Rattle.std.specs.Prelude.{◌≡◌, ◌+◌, ◌<◌, ◌∷◌, ◌++◌, ◌↔◌, [], List, ℕ, ℤ, MatchBool, MatchOption, IsSome, IsTrue, IfOk, OnOk, OnErr, is_some, if◌then◌else◌};
ghost use Rattle.std.specs.Ordering.{int_cmp};
ghost use Rattle.std.specs.BTreeMap.{get};
ghost use Rattle.row_types.specs.declared.values.Value.TheVariants.{Int as Number};
ghost use Rattle.ptc_run.specs.Lines.{lines_of};
ghost use Rattle.ptc_run.specs.RowLines.{is_for_source, is_for_replica};
ghost use Rattle.ptc_run.specs.FirstForm.{AllowedRows};
ghost use Rattle.ptc_run.specs.KeptRows.{rows_in, Keeps, KeepsBoth, IsKnown, IsNew, EndsRows, TakesRow};

use crate::line_cuts::first_line;
use crate::row_lines::{RowLine, row_of};
use row_types::{R, Row, Rows, Value};
use std::alloc::Global;
use std::collections::BTreeMap;

/// The values by key on the source and on the replica.
#[derive(Drop)]
pub struct Nodes {
    pub source: BTreeMap<i64, i64>,
    pub replica: BTreeMap<i64, i64>,
}

/// Puts the row of a line into a map, if the line names the map's node.
fn put_in(kept: &mut BTreeMap<i64, i64>, named: bool, row: RowLine) -> R<()>
    ensures { (rows : List RowLine) → Keeps kept.old rows →
        OnOk result (Keeps kept.new (rows ++ (if named then row ∷ [] else []))) }
{
    if named {
        kept.insert(row.key, row.value)?;
    }
    Ok(())
}

impl Nodes {
    pub fn new(alloc: Global) -> Nodes
        ensures { KeepsBoth result [] }
    {
        Nodes {
            source: BTreeMap::new(alloc),
            replica: BTreeMap::new(alloc),
        }
    }

    /// Whether one of the line's nodes has its key.
    fn has(&self, row: RowLine) -> bool
        ensures { MatchBool result (IsKnown self.now row) (IsNew self.now row) }
    {
        if row.node.is_for_source() && self.source.contains_key(&row.key) {
            return true;
        }
        row.node.is_for_replica() && self.replica.contains_key(&row.key)
    }

    /// Puts the row on the line's nodes.
    fn put(&mut self, row: RowLine) -> R<()>
        ensures { (rows : List RowLine) → KeepsBoth self.old rows →
            OnOk result (KeepsBoth self.new (rows ++ row ∷ [])) }
    {
        put_in(&mut self.source, row.node.is_for_source(), row)?;
        put_in(&mut self.replica, row.node.is_for_replica(), row)?;
        Ok(())
    }

    /// Takes the first line if it is a ROW line whose key is new, and gives what stands behind it.
    pub fn take_line<'a>(&mut self, bytes: &'a [u8]) -> R<Option<&'a [u8]>>
        ensures { (rows : List RowLine) → AllowedRows rows → KeepsBoth self.old rows →
            IfOk result (λ rest. MatchOption rest
            (KeepsBoth self.new rows × EndsRows rows (lines_of bytes.now))
            (λ rest. TakesRow self.new rows bytes.now rest.now)) }
    {
        let Some((line, rest)) = first_line(bytes) else {
            return Ok(None);
        };
        let Some(row) = row_of(line) else {
            return Ok(None);
        };
        if self.has(row) {
            return Ok(None);
        }
        self.put(row)?;
        Ok(Some(rest))
    }
}

fn row_from(alloc: Global, key: i64, value: i64) -> R<Row>
    ensures { IfOk result (λ row. row ≡ Number key ∷ Number value ∷ []) }
{
    let mut items = Vec::with_capacity(alloc, 2)?;
    items.push(Value::Int(key))?;
    items.push(Value::Int(value))?;
    Ok(Row { items })
}

/// The rows of a node, by rising key.
pub fn rows_from(alloc: Global, kept: &BTreeMap<i64, i64>) -> R<Rows>
    ensures { IfOk result (λ rows. rows ≡ rows_in kept.now) }
{
    let mut rows = Rows::new(alloc);
    for (key, value) in kept {
        rows.push(row_from(alloc, *key, *value)?)?;
    }
    Ok(rows)
}
