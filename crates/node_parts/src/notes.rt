ghost use Rattle.std.specs.List.{remove, slice_get};
ghost use Rattle.std.specs.Prelude.{◌≡◌, ◌≤◌, ◌<◌, ◌+◌, ◌^◌, [], ◌∷◌, ◌++◌, None, Some, option_map, take, length, vec_len, vec_capacity, IfSome, OnOk, OnErr};
ghost use Rattle.row_types.specs.KeyRows.{HasKey, row_at};
ghost use Rattle.node_parts.specs.Written.{written};
ghost use Rattle.node_parts.specs.NotesView.{forgotten};

use lock_table::Owner;
use ordered_table::Table;
use row_types::{Key, R, Row};
use std::alloc::Global;
use std::marker::Model;

/// What was at a key of a table before an owner's change there.
#[derive(Debug, Drop)]
pub struct Note {
    pub owner: Owner,
    pub table: u32,
    pub key: Key,
    pub was: Option<Row>,
}

/// A row that is due at a key of a table, or that none is.
#[derive(Debug, Drop)]
pub struct Change {
    pub table: u32,
    pub key: Key,
    pub new: Option<Row>,
}

/// What open transactions have to put back, in the order of their changes. A number of further notes,
/// spare, can be made without memory.
#[derive(Debug, Drop)]
pub struct Notes {
    notes: Vec<Note>,
    spare: u64,
}

impl Model for Notes {
    ghost use Rattle.node_parts.specs.NotesView.{NotesView};
    ghost use Rattle.node_parts.specs.NotesParts.{notes_view, HasRoom};

    ghost Value = { NotesView };

    ghost view = { notes_view };

    ghost invariant = { HasRoom };
}

impl Notes {
    pub fn new(alloc: Global) -> Notes
        ensures { result ≡ record { notes = []; spare = 0 } }
    {
        Notes {
            notes: Vec::new(alloc),
            spare: 0,
        }
    }

    pub fn len(&self) -> usize
        ensures value { result ≡ length self.now.notes }
        ensures bound { result < 2 ^ 63 }
    {
        self.notes.len()
    }

    /// Who made the note of this number.
    pub fn owner_at(&self, index: usize) -> Owner
        requires { index < length self.now.notes }
        ensures { option_map (λ note. note.owner) (slice_get self.now.notes index) ≡ Some result }
    {
        self.notes[index].owner
    }

    /// The note of this number.
    pub fn at(&self, index: usize) -> &Note
        requires { index < length self.now.notes }
        ensures { slice_get self.now.notes index ≡ Some result.now }
    {
        &self.notes[index]
    }

    /// Takes the note of this number away.
    pub fn take(&mut self, index: usize) -> Note
        requires { index < length self.old.notes }
        ensures note { slice_get self.old.notes index ≡ Some result }
        ensures left { self.new.notes ≡ remove self.old.notes index }
    {
        self.notes.remove(index)
    }

    /// The notes of an owner go.
    pub fn forget(&mut self, owner: Owner)
        ensures { self.new.notes ≡ forgotten owner.0 self.old.notes }
    {
        take_out(&mut self.notes, owner);
    }

    /// Makes room for a further note; a refusal changes nothing.
    pub fn reserve(&mut self) -> R<()>
        ensures ok { OnOk result (1 ≤ self.new.spare) }
        ensures err { OnErr result (self.new ≡ self.old) }
        ensures notes { self.new.notes ≡ self.old.notes }
    {
        if self.spare == 0 {
            self.notes.reserve(1)?;
            self.spare = 1;
        }
        Ok(())
    }

    /// Makes a note, in the room of a spare one.
    fn note(&mut self, note: Note)
        requires { 1 ≤ self.old.spare }
        ensures { self.new.notes ≡ self.old.notes ++ note ∷ [] }
    {
        self.spare -= 1;
        put_last(&mut self.notes, note);
    }
}

fn put_last(notes: &mut Vec<Note>, note: Note)
    requires { vec_len notes.old < vec_capacity notes.old }
    ensures items { notes.new.items ≡ notes.old.items ++ note ∷ [] }
    ensures len { vec_len notes.new ≡ vec_len notes.old + 1 }
    ensures capacity { vec_capacity notes.old ≤ vec_capacity notes.new }
{
    match notes.push(note) {
        Ok(()) => {}
        Err(_) => unreachable!(),
    }
}

fn take_out(notes: &mut Vec<Note>, owner: Owner)
    ensures items { notes.new.items ≡ forgotten owner.0 notes.old.items }
    ensures len { vec_len notes.new ≤ vec_len notes.old }
    ensures capacity { vec_capacity notes.old ≤ vec_capacity notes.new }
{
    notes.retain(|note| note.owner.0 != owner.0);
}

/// Puts a row at a key or takes the one there away, without memory, and hands back what was there.
pub fn write_at(table: &mut Table, key: &Key, new: Option<Row>) -> Option<Row>
    requires new { IfSome new (λ row. HasKey table.old.key_len row × (key.now ≡ take table.old.key_len row)) }
    requires room { 1 ≤ table.old.spare }
    ensures was { result ≡ row_at table.old.key_len key.now table.old.rows }
    ensures rows { table.new.rows ≡ written table.old.key_len key.now new table.old.rows }
    ensures key_len { table.new.key_len ≡ table.old.key_len }
    ensures spare { table.old.spare ≤ table.new.spare + 1 }
{
    match new {
        None => table.remove(key),
        Some(row) => table.put_back(row),
    }
}

/// Makes a change of a table, without memory, and notes for an owner what was there.
pub fn change_noted(table: &mut Table, notes: &mut Notes, owner: Owner, change: Change)
    requires new { IfSome change.new (λ row. HasKey table.old.key_len row × (change.key ≡ take table.old.key_len row)) }
    requires room { 1 ≤ table.old.spare }
    requires notes { 1 ≤ notes.old.spare }
    ensures rows { table.new.rows ≡ written table.old.key_len change.key change.new table.old.rows }
    ensures key_len { table.new.key_len ≡ table.old.key_len }
    ensures spare { table.old.spare ≤ table.new.spare + 1 }
    ensures notes { notes.new.notes ≡ notes.old.notes ++ record { owner = owner; table = change.table; key = change.key; was = row_at table.old.key_len change.key table.old.rows } ∷ [] }
{
    let Change {
        table: number,
        key,
        new,
    } = change;
    let was = write_at(table, &key, new);
    notes.note(Note {
        owner,
        table: number,
        key,
        was,
    });
}
