ghost use Rattle.std.specs.Prelude.{◌≡◌, ◌<◌, ◌^◌, List, length, IfOk, OnOk};
ghost use Rattle.row_types.specs.declared.table_schema.Schema.{Schema as TableSchema};
ghost use Rattle.statement_tokens.specs.declared.words.Token.{Token as OneToken};
ghost use Rattle.statement_grammar.specs.Terms.{column_or_0 as number_or_0};
ghost use Rattle.statement_grammar.specs.FirstFault.{earlier as the_earlier};
ghost use Rattle.statement_faults.specs.TreeFaults.{merged};
ghost use Rattle.statement_reader.specs.Spots.{spot_of};
ghost use Rattle.statement_drafts.specs.Drafts.{schema_at};
ghost use Rattle.statement_trees.specs.Trees.{IsStopped};
ghost use Rattle.statement_reading.specs.Readers.{reading_of, used};
ghost use Rattle.statement_reading.specs.TreeEnds.{IsClosed, IsTreeEnd, cond_by, fault_by, sets_by, with_term};

use crate::readers::Reader;
use ptc_statement::Assignment;
use row_types::{R, Schema, Schemas};
use statement_drafts::schema_of;
use statement_faults::{fault_of_tree, first_fault};
use statement_grammar::TextFault;
use statement_operands::{Operand, Tree};
use statement_reader::{Facts, Spot, earlier};
use statement_trees::{OpenTree, TreeEnd};
use std::alloc::Global;

/// The table's schema, or the one for a table that is not there.
pub fn schema_or<'a>(table: Option<u32>, schemas: &'a Schemas, nothing: &'a Schema) -> &'a Schema
    ensures { result.now ≡ used nothing.now (schema_at schemas.now.tables table) }
{
    match schema_of(table, schemas) {
        None => nothing,
        Some(schema) => schema,
    }
}

fn fault_in_tree(
    reader: &Reader,
    schemas: &Schemas,
    facts: Facts,
    deep: Option<u32>,
) -> Option<TextFault>
    ensures { result ≡ fault_by (schema_at schemas.now.tables reader.now.draft.table) (spot_of reader.now.spot) reader.now.draft.column facts deep }
{
    match schema_of(reader.draft.table, schemas) {
        None => None,
        Some(schema) => fault_of_tree(schema, reader.spot, reader.draft.column, facts, deep),
    }
}

fn number_of(column: Option<u32>) -> u32
    ensures { result ≡ number_or_0 column }
{
    match column {
        None => 0,
        Some(number) => number,
    }
}

fn put_term(reader: &mut Reader, tree: Tree) -> R<()>
    ensures { OnOk result (reader.new ≡ record reader.old { sets = sets_by (spot_of reader.old.spot) reader.old.draft.column reader.old.sets tree; cond = cond_by (spot_of reader.old.spot) reader.old.cond tree }) }
{
    match reader.spot {
        Spot::ExprDue => {
            let column = number_of(reader.draft.column);
            let expr = tree.into_expr();
            reader.sets.push(Assignment { column, expr })?;
            Ok(())
        }
        _ => {
            reader.cond = Some(tree.into_cond());
            Ok(())
        }
    }
}

fn put(
    reader: Reader,
    schemas: &Schemas,
    next: Spot,
    tree: Tree,
    fault: Option<TextFault>,
) -> R<Reader>
    ensures { IfOk result (λ r. reading_of schemas.now.tables r ≡ with_term (reading_of schemas.now.tables reader) (spot_of next) tree fault) }
{
    let mut reader = reader;
    if schema_of(reader.draft.table, schemas).is_some() {
        put_term(&mut reader, tree)?;
    }
    reader.first = first_fault(reader.first, fault);
    reader.spot = next;
    Ok(reader)
}

fn close_whole(
    reader: Reader,
    schemas: &Schemas,
    next: Spot,
    x: Operand,
    deep: Option<u32>,
) -> R<Reader>
    ensures { IfOk result (λ r. reading_of schemas.now.tables r ≡ with_term (reading_of schemas.now.tables reader) (spot_of next) x.tree (fault_by (schema_at schemas.now.tables reader.draft.table) (spot_of reader.spot) reader.draft.column x.facts deep)) }
{
    let Operand { tree, facts } = x;
    let fault = fault_in_tree(&reader, schemas, facts, deep);
    let reader = put(reader, schemas, next, tree, fault)?;
    Ok(reader)
}

fn close_open(
    reader: &Reader,
    schemas: &Schemas,
    facts: Facts,
    deep: Option<u32>,
    place: u32,
) -> TextFault
    ensures { result ≡ the_earlier (TextFault.At place) (merged reader.now.first (fault_by (schema_at schemas.now.tables reader.now.draft.table) (spot_of reader.now.spot) reader.now.draft.column facts deep)) }
{
    let fault = fault_in_tree(reader, schemas, facts, deep);
    earlier(TextFault::At { place }, first_fault(reader.first, fault))
}

fn closed(
    reader: Reader,
    schemas: &Schemas,
    next: Spot,
    end: TreeEnd,
    place: u32,
) -> Result<Reader, TextFault>
    ensures { IsClosed schemas.now.tables (reading_of schemas.now.tables reader) (spot_of next) end place result }
{
    match end {
        TreeEnd::Open(facts, deep) => Err(close_open(&reader, schemas, facts, deep, place)),
        TreeEnd::Whole(x, deep) => match close_whole(reader, schemas, next, x, deep) {
            Ok(reader) => Ok(reader),
            Err(_) => Err(TextFault::Memory),
        },
    }
}

/// Ends a tree behind its last token: the statement with it, or, where the tokens are no tree, the first fault where
/// nothing more fits at this place.
pub fn end_tree(
    reader: Reader,
    alloc: Global,
    schemas: &Schemas,
    schema: &Schema,
    base: bool,
    next: Spot,
    tree: OpenTree,
    place: u32,
) -> Result<Reader, TextFault>
    requires columns { length schema.now.columns < 2 ^ 32 }
    ensures { (nothing : TableSchema) (ts : List OneToken) → schema.now ≡ used nothing (schema_at schemas.now.tables reader.draft.table) → IsStopped schema.now base ts tree → IsTreeEnd schemas.now.tables schema.now base ts (reading_of schemas.now.tables reader) (spot_of next) place result }
{
    match tree.finish(alloc, schema, base) {
        Err(_) => Err(TextFault::Memory),
        Ok(end) => closed(reader, schemas, next, end, place),
    }
}
