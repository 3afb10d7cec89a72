ghost use Rattle.std.specs.Prelude.{[], IfOk};
ghost use Rattle.text_check.specs.Checks.{IsChecked, texts_of};

use crate::answers::answers;
use crate::tables::table_in;
use file_lines::{content, first_line};
use row_types::{R, SchemaList, Schemas};
use std::alloc::Global;

/// Reads tables from the first lines, and answers each line of a statement behind them: with its canonical text, or
/// with its first fault. Out of memory also where a line, or the tables, cannot be counted in 32 bits.
pub fn check(alloc: Global, text: &[u8]) -> R<Vec<u8>>
    ensures { IfOk result (λ out. IsChecked [] (texts_of text.now) out.items) }
{
    let mut tables = SchemaList::new(alloc);
    let mut rest = text;
    while let Some((line, more)) = first_line(rest) {
        match table_in(alloc, content(line))? {
            None => return answers(alloc, rest, &Schemas { tables }),
            Some(schema) => tables.push(schema)?,
        }
        rest = more;
    }
    Ok(Vec::new(alloc))
}
