ghost use Rattle.std.specs.Prelude.{◌≡◌};
ghost use Rattle.line_decisions.specs.Tests.{any_named as is_any_named, has_twins as are_twins};

use row_types::Column;

fn any_named(name: &[u8], columns: &[Column]) -> bool
    ensures { result ≡ is_any_named name.now columns.now }
{
    let mut rest = columns;
    while let Some((column, more)) = rest.split_first() {
        if column.name.as_slice() == name {
            return true;
        }
        rest = more;
    }
    false
}

/// Whether two of these columns have one name.
pub(crate) fn has_twins(columns: &[Column]) -> bool
    ensures { result ≡ are_twins columns.now }
{
    let mut rest = columns;
    while let Some((column, more)) = rest.split_first() {
        if any_named(column.name.as_slice(), more) {
            return true;
        }
        rest = more;
    }
    false
}
