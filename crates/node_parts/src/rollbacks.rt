ghost use Rattle.std.specs.Prelude.{◌≡◌, length, ◌==◌, ◌<◌};
ghost use Rattle.node_model.specs.Node.{ended};
ghost use Rattle.node_parts.specs.Kept.{node_view, PartsKept};
ghost use Rattle.node_parts.specs.KeptReads.{ReadsKept};
ghost use Rattle.node_parts.specs.Undone.{IsUndoing, CanPutBack, IsPutBack};

use crate::notes::{Note, Notes, write_at};
use crate::parts::Parts;
use lock_table::Owner;
use node_reads::forget;
use ordered_table::Table;
use row_types::Schemas;

/// An owner's transaction, what it changed and what it holds are gone. It takes no memory.
pub fn rollback_parts(owner: Owner, parts: &mut Parts)
    requires kept { PartsKept parts.old }
    requires reads { ReadsKept parts.old }
    ensures view { node_view parts.new ≡ ended owner.0 (node_view parts.old) }
    ensures kept { PartsKept parts.new }
    ensures reads { ReadsKept parts.new }
{
    undo_all(&mut parts.tables, &mut parts.notes, owner, &parts.schemas);
    parts.txns.end(owner);
    parts.locks.release(owner);
    forget(&mut parts.reads, owner);
}

/// Puts back all that an owner has noted, the last first.
fn undo_all(tables: &mut Vec<Table>, notes: &mut Notes, owner: Owner, _schemas: &Schemas)
    requires { IsUndoing _schemas.now.tables owner.0 tables.old.items notes.old.notes tables.old.items notes.old.notes (length notes.old.notes) }
    ensures { IsUndoing _schemas.now.tables owner.0 tables.old.items notes.old.notes tables.new.items notes.new.notes 0 }
{
    let mut index = notes.len();
    while index > 0 {
        index -= 1;
        if notes.owner_at(index).0 == owner.0 {
            put_back_at(tables, notes, index);
        }
    }
}

/// Puts back what a note is of, and takes the note away.
fn put_back_at(tables: &mut Vec<Table>, notes: &mut Notes, index: usize)
    requires { CanPutBack index tables.old.items notes.old.notes }
    ensures { IsPutBack index tables.old.items tables.new.items notes.old.notes notes.new.notes }
{
    let Note {
        table: number,
        key,
        was,
        ..
    } = notes.take(index);
    write_at(&mut tables[number as usize], &key, was);
}
