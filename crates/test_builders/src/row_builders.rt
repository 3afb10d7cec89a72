ghost use Rattle.std.specs.Prelude.{◌≡◌, [], ◌∷◌, take, map, IfOk};
ghost use Rattle.row_types.specs.declared.values.Value.TheVariants.{Int, Text};
ghost use Rattle.test_builders.specs.Builders.{pair, pair_of, half_pair};

use row_types::{Bytes, R, Row, Rows, Tables, Value};
use std::alloc::Global;

/// A text of these bytes.
pub fn text(alloc: Global, bytes: &[u8]) -> R<Bytes>
    ensures { IfOk result (λ text. text ≡ bytes.now) }
{
    Ok(Bytes {
        items: Vec::from_slice(alloc, bytes)?,
    })
}

/// A value that is a text of these bytes.
pub fn text_value(alloc: Global, bytes: &[u8]) -> R<Value>
    ensures { IfOk result (λ value. value ≡ Text bytes.now) }
{
    Ok(Value::Text(text(alloc, bytes)?))
}

/// A row of two numbers.
pub fn row(alloc: Global, id: i64, value: i64) -> R<Row>
    ensures { IfOk result (λ row. row ≡ pair id value) }
{
    let mut row = Row::new(alloc);
    row.push(Value::Int(id))?;
    row.push(Value::Int(value))?;
    Ok(row)
}

/// A row of a number and NULL.
pub fn null_row(alloc: Global, id: i64) -> R<Row>
    ensures { IfOk result (λ row. row ≡ half_pair id) }
{
    let mut row = Row::new(alloc);
    row.push(Value::Int(id))?;
    row.push(Value::Null)?;
    Ok(row)
}

/// A row of a number and a text.
pub fn row_of_text(alloc: Global, id: i64, bytes: &[u8]) -> R<Row>
    ensures { IfOk result (λ row. row ≡ Int id ∷ Text bytes.now ∷ []) }
{
    let mut row = Row::new(alloc);
    row.push(Value::Int(id))?;
    row.push(text_value(alloc, bytes)?)?;
    Ok(row)
}

/// Rows of two numbers each, in this order.
pub fn rows(alloc: Global, pairs: &[(i64, i64)]) -> R<Rows>
    ensures { IfOk result (λ rows. rows ≡ map pair_of pairs.now) }
{
    let mut rows = Rows::new(alloc);
    for (id, value) in pairs {
        rows.push(row(alloc, *id, *value)?)?;
    }
    Ok(rows)
}

/// One table of rows of two numbers each.
pub fn tables(alloc: Global, pairs: &[(i64, i64)]) -> R<Tables>
    ensures { IfOk result (λ tables. tables ≡ map pair_of pairs.now ∷ []) }
{
    let mut tables = Tables::new(alloc);
    tables.push(rows(alloc, pairs)?)?;
    Ok(tables)
}
