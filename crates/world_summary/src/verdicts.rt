//! The verdicts on replicas, from the check rows of the nodes.
ghost use Rattle.std.specs.Prelude.{◌≡◌, ◌++◌, IfOk, OnOk};
ghost use Rattle.std.specs.Option.{option_copied};
ghost use Rattle.world_model.specs.Verdicts.{verdict_line, all_chunks, replica_verdicts};

use checksum_table::{CheckEntry, CheckRow, Checks, Verdict};
use report_text::{VerdictLine, VerdictLines};
use row_types::R;
use std::alloc::Global;

/// By the replica's row of the entry's chunk; where it has none, by the entry, with no counts.
fn line_of(
    alloc: Global,
    replica: u32,
    entry: &CheckEntry,
    own: Option<&CheckRow>,
) -> R<VerdictLine>
    ensures { IfOk result (λ line. line ≡ verdict_line replica entry.now (option_copied own.entry)) }
{
    match own {
        Some(row) => Ok(VerdictLine {
            replica,
            table: entry.table,
            chunk: entry.chunk,
            span: row.span.copy(alloc)?,
            position: row.position,
            master: row.master.map(|master| master.count),
            own: Some(row.this.count),
            verdict: Checks::verdict(Some(row)),
        }),
        None => Ok(VerdictLine {
            replica,
            table: entry.table,
            chunk: entry.chunk,
            span: entry.row.span.copy(alloc)?,
            position: entry.row.position,
            master: None,
            own: None,
            verdict: Verdict::Pending,
        }),
    }
}

/// An entry for each chunk that the replica or the source has a check row of.
fn all_chunks_of(alloc: Global, own: &Checks, source: &Checks) -> R<Checks>
    ensures { IfOk result (λ chunks. chunks ≡ all_chunks own.now source.now) }
{
    let mut chunks = own.copy(alloc)?;
    for entry in source.as_slice() {
        chunks.add_absent(entry.copy(alloc)?)?;
    }
    Ok(chunks)
}

/// Appends the verdicts on a replica.
pub fn add_verdicts(
    alloc: Global,
    lines: &mut VerdictLines,
    replica: u32,
    source: &Checks,
    own: &Checks,
) -> R<()>
    ensures { OnOk result (lines.new ≡ lines.old ++ replica_verdicts replica source.now own.now) }
{
    let chunks = all_chunks_of(alloc, own, source)?;
    for entry in chunks.as_slice() {
        let line = line_of(alloc, replica, entry, own.get(entry.table, entry.chunk))?;
        lines.push(line)?;
    }
    Ok(())
}
