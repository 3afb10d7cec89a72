//! Places of chunks among entries by rising table and chunk, found by binary search, and changes there.
ghost use Rattle.std.specs.Prelude.{◌≡◌, IfOk, IfErr, OnOk, OnErr};
ghost use Rattle.std.specs.Option.{is_some};
ghost use Rattle.checksum_table.specs.Checks.{check_at, with_check, with_absent, with_master, without_table, last_chunk, IsByPlace};
ghost use Rattle.checksum_table.specs.Places.{IsFoundAt, IsFreeAt, IsEndOf};

use crate::check_rows::CheckEntry;
use row_types::{Digest, R};

/// The index of the chunk's row, or else that of the first entry after its place.
pub fn place_of(entries: &[CheckEntry], table: u32, chunk: u32) -> Result<usize, usize>
    requires { IsByPlace entries.now }
    ensures found { IfOk result (IsFoundAt table chunk entries.now) }
    ensures free { IfErr result (IsFreeAt table chunk entries.now) }
{
    entries.binary_search_by(|entry| entry.table.cmp(&table).then(entry.chunk.cmp(&chunk)))
}

/// The index of the first entry of a later table.
fn end_of(entries: &[CheckEntry], table: u32) -> usize
    requires { IsByPlace entries.now }
    ensures { IsEndOf table entries.now result }
{
    entries.partition_point(|entry| entry.table <= table)
}

/// The greatest chunk of the table, 0 where it has none.
pub fn last_chunk(entries: &[CheckEntry], table: u32) -> u32
    requires { IsByPlace entries.now }
    ensures { result ≡ last_chunk table entries.now }
{
    let end = end_of(entries, table);
    if end == 0 {
        return 0;
    }
    let entry = &entries[end - 1];
    if entry.table != table {
        return 0;
    }
    entry.chunk
}

/// Puts the entry at its place, in place of one that is there.
pub fn put(entries: &mut Vec<CheckEntry>, entry: CheckEntry) -> R<()>
    requires { IsByPlace entries.old.items }
    ensures ok { OnOk result (entries.new.items ≡ with_check entry.table entry.chunk entry.row entries.old.items) }
    ensures err { OnErr result (entries.new.items ≡ entries.old.items) }
    ensures by_place { IsByPlace entries.new.items }
{
    match place_of(entries.as_slice(), entry.table, entry.chunk) {
        Ok(index) => entries[index] = entry,
        Err(index) => entries.insert(index, entry)?,
    }
    Ok(())
}

/// Puts the entry at its place where none is there.
pub fn put_absent(entries: &mut Vec<CheckEntry>, entry: CheckEntry) -> R<()>
    requires { IsByPlace entries.old.items }
    ensures ok { OnOk result (entries.new.items ≡ with_absent entry entries.old.items) }
    ensures err { OnErr result (entries.new.items ≡ entries.old.items) }
    ensures by_place { IsByPlace entries.new.items }
{
    match place_of(entries.as_slice(), entry.table, entry.chunk) {
        Ok(_) => {}
        Err(index) => entries.insert(index, entry)?,
    }
    Ok(())
}

/// Puts the source's checksum into the chunk's row, and says whether that stands.
pub fn put_master(entries: &mut Vec<CheckEntry>, table: u32, chunk: u32, master: Digest) -> bool
    requires { IsByPlace entries.old.items }
    ensures value { entries.new.items ≡ with_master table chunk master entries.old.items }
    ensures found { result ≡ is_some (check_at table chunk entries.old.items) }
    ensures by_place { IsByPlace entries.new.items }
{
    match place_of(entries.as_slice(), table, chunk) {
        Ok(index) => {
            entries[index].row.master = Some(master);
            true
        }
        Err(_) => false,
    }
}

/// Takes the table's entries out.
pub fn forget_table(entries: &mut Vec<CheckEntry>, table: u32)
    requires { IsByPlace entries.old.items }
    ensures value { entries.new.items ≡ without_table table entries.old.items }
    ensures by_place { IsByPlace entries.new.items }
{
    entries.retain(|entry| entry.table != table);
}
