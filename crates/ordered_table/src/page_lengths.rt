ghost use Rattle.std.specs.Prelude.{◌≡◌, List, IfOk, length, map};
ghost use Rattle.row_types.specs.declared.values.Value.{Value};

use crate::pages::Page;
use row_types::R;
use std::alloc::Global;

/// How many rows each page has.
pub(crate) fn lengths_of(alloc: Global, pages: &[Page]) -> R<Vec<usize>>
    ensures { IfOk result (λ lengths. lengths.items ≡ map (λ (page : List (List Value)). length page) pages.now) }
{
    let mut lengths = Vec::with_capacity(alloc, pages.len())?;
    let mut rest = pages;
    while let Some((page, more)) = rest.split_first() {
        lengths.push(page.len())?;
        rest = more;
    }
    Ok(lengths)
}
