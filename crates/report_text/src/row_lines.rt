//! The first lines, and the rows of nodes.
ghost use Rattle.std.specs.Prelude.{◌≡◌, OnOk};
ghost use Rattle.statement_text.specs.Written.{Appended};
ghost use Rattle.report_text.specs.Report.{head_text, replica_text, node_text, row_place_text, row_line, rows_lines, tables_lines, nodes_lines};
ghost use Rattle.std.specs.List.{flat_map};
ghost use Rattle.statement_text.specs.Texts.{table_line};

use row_types::{R, Row, Rows, Schema, Tables};
use statement_text::Writer;

fn push_schemas(writer: &mut Writer, schemas: &[Schema]) -> R<()>
    ensures { OnOk result (Appended (flat_map table_line schemas.now) writer.old writer.new) }
{
    for schema in schemas {
        writer.push_table(schema)?;
    }
    Ok(())
}

/// The first line of a report, and the schemas.
#[tactic(auto, unfolding(crate::specs::Report::head_text))]
pub fn push_head(writer: &mut Writer, schemas: &[Schema]) -> R<()>
    ensures { OnOk result (Appended (head_text schemas.now) writer.old writer.new) }
{
    writer.push_bytes(b"PTC REPORT 1\n")?;
    push_schemas(writer, schemas)
}

#[tactic(auto, unfolding(crate::specs::Report::replica_text))]
pub(crate) fn push_replica(writer: &mut Writer, replica: u64) -> R<()>
    ensures { OnOk result (Appended (replica_text replica) writer.old writer.new) }
{
    writer.push_bytes(b"r")?;
    writer.push_number(replica)
}

#[tactic(auto, unfolding(crate::specs::Report::node_text))]
fn push_node(writer: &mut Writer, node: usize) -> R<()>
    ensures { OnOk result (Appended (node_text node) writer.old writer.new) }
{
    if node == 0 {
        return writer.push_bytes(b"source");
    }
    push_replica(writer, node as u64)
}

#[tactic(auto, unfolding(crate::specs::Report::row_place_text))]
fn push_row_place(writer: &mut Writer, word: &[u8], node: usize, table: usize) -> R<()>
    ensures { OnOk result (Appended (row_place_text writer.old.schemas word.now node table) writer.old writer.new) }
{
    writer.push_bytes(word)?;
    writer.push_bytes(b" ")?;
    push_node(writer, node)?;
    writer.push_bytes(b" ")?;
    writer.push_name(table)?;
    writer.push_bytes(b" ")
}

#[tactic(auto, unfolding(crate::specs::Report::row_line))]
fn push_row(writer: &mut Writer, word: &[u8], node: usize, table: usize, row: &Row) -> R<()>
    ensures { OnOk result (Appended (row_line writer.old.schemas word.now node table row.now) writer.old writer.new) }
{
    push_row_place(writer, word, node, table)?;
    writer.push_tuple(row.as_slice())?;
    writer.push_bytes(b"\n")
}

fn push_rows(writer: &mut Writer, word: &[u8], node: usize, table: usize, rows: &[Row]) -> R<()>
    ensures { OnOk result (Appended (rows_lines writer.old.schemas word.now node table rows.now) writer.old writer.new) }
{
    for row in rows {
        push_row(writer, word, node, table, row)?;
    }
    Ok(())
}

fn push_tables(writer: &mut Writer, word: &[u8], node: usize, tables: &[Rows]) -> R<()>
    ensures { OnOk result (Appended (tables_lines writer.old.schemas word.now node 0 tables.now) writer.old writer.new) }
{
    for (table, rows) in tables.iter().enumerate() {
        push_rows(writer, word, node, table, rows.as_slice())?;
    }
    Ok(())
}

/// The rows of nodes, node by node and table by table; node 0 is the source.
pub fn push_nodes(writer: &mut Writer, word: &[u8], nodes: &[Tables]) -> R<()>
    ensures { OnOk result (Appended (nodes_lines writer.old.schemas word.now 0 nodes.now) writer.old writer.new) }
{
    for (node, tables) in nodes.iter().enumerate() {
        push_tables(writer, word, node, tables.as_slice())?;
    }
    Ok(())
}
