ghost use Rattle.std.specs.Prelude.{◌≡◌, IfOk, MatchOption};
ghost use Rattle.line_items.specs.Items.{IsItemAt, NoItemAt};

use crate::column_items::{
    column_item, columns_item, comma_item, kind_item, length_closes_item, length_item,
    length_opens_item, mark_item, null_item, table_item,
};
use crate::found_items::FoundItem;
use crate::row_items::{
    digits_item, literal_end_item, literal_item, node_item, row_opens_item, row_table_item,
};
use crate::word_items::{
    committed_item, count_item, level_item, local_item, read_item, section_item, session_item,
    turns_item, version_item, workload_item,
};
use file_text::Spot;
use row_types::R;
use std::alloc::Global;

/// The item that a part of a line is at this place, and the place behind it; None where it is none that may
/// stand there.
pub fn item_at(alloc: Global, spot: Spot, text: &[u8]) -> R<Option<FoundItem>>
    ensures { IfOk result (λ told. MatchOption told (NoItemAt spot text.now) (λ found. IsItemAt spot text.now found)) }
{
    match spot {
        Spot::SectionDue(section) => Ok(section_item(section, text)),
        Spot::WorkloadDue => Ok(workload_item(text)),
        Spot::VersionDue => Ok(version_item(text)),
        Spot::LevelDue => Ok(level_item(text)),
        Spot::ReadDue => Ok(read_item(text)),
        Spot::CommittedDue => Ok(committed_item(text)),
        Spot::CountDue => Ok(count_item(text)),
        Spot::TableDue => table_item(alloc, text),
        Spot::ColumnsDue => Ok(columns_item(text)),
        Spot::ColumnDue(column) => column_item(alloc, column, text),
        Spot::KindDue(column) => Ok(kind_item(column, text)),
        Spot::LengthOpens(column) => Ok(length_opens_item(column, text)),
        Spot::LengthDue(column) => Ok(length_item(column, text)),
        Spot::LengthCloses(column) => Ok(length_closes_item(column, text)),
        Spot::MarkDue(column) => Ok(mark_item(column, text)),
        Spot::NullDue(column) => Ok(null_item(column, text)),
        Spot::CommaDue(column) => Ok(comma_item(column, text)),
        Spot::NodeDue => Ok(node_item(text)),
        Spot::RowTableDue => row_table_item(alloc, text),
        Spot::RowOpens => Ok(row_opens_item(text)),
        Spot::LiteralDue => literal_item(alloc, text),
        Spot::DigitsDue => Ok(digits_item(text)),
        Spot::LiteralEnds => Ok(literal_end_item(text)),
        Spot::SessionDue => Ok(session_item(text)),
        Spot::LocalDue => Ok(local_item(text)),
        Spot::TurnsDue => Ok(turns_item(text)),
        Spot::NothingDue => Ok(None),
    }
}
