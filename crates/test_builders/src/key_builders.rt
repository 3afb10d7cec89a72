ghost use Rattle.std.specs.Prelude.{◌≡◌, [], ◌∷◌, IfOk};
ghost use Rattle.row_types.specs.declared.values.Value.TheVariants.{Int, Text};
ghost use Rattle.row_types.specs.declared.edges.Edge.TheVariants.{Before, After};
ghost use Rattle.row_types.specs.declared.edges.Span.{Span};

use crate::row_builders::text_value;
use row_types::{Edge, Key, R, Span, Value};
use std::alloc::Global;

/// A key of one number.
pub fn key(alloc: Global, id: i64) -> R<Key>
    ensures { IfOk result (λ key. key ≡ Int id ∷ []) }
{
    let mut key = Key::new(alloc);
    key.push(Value::Int(id))?;
    Ok(key)
}

/// A key of a number and a text.
pub fn key_of_two(alloc: Global, id: i64, bytes: &[u8]) -> R<Key>
    ensures { IfOk result (λ key. key ≡ Int id ∷ Text bytes.now ∷ []) }
{
    let mut key = Key::new(alloc);
    key.push(Value::Int(id))?;
    key.push(text_value(alloc, bytes)?)?;
    Ok(key)
}

/// The keys from one number to another, both among them.
pub fn keys_between(alloc: Global, first: i64, last: i64) -> R<Span>
    ensures { IfOk result (λ span. span ≡ record { lo = Before (Int first ∷ []); hi = After (Int last ∷ []) }) }
{
    Ok(Span {
        lo: Edge::Before(key(alloc, first)?),
        hi: Edge::After(key(alloc, last)?),
    })
}
