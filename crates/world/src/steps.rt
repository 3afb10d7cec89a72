ghost use Rattle.std.specs.Prelude.{◌≡◌, IfOk, OnOk, OnErr};
ghost use Rattle.turn_notes.specs.Notes.{has_moved as moves};
ghost use Rattle.world_model.specs.Turns.{move, stepped};
ghost use Rattle.world.specs.WorldParts.{world_view, PartsKept};

use crate::journals::write_line;
use crate::note_copies::copy_note;
use crate::parts::Parts;
use crate::turns::{item_turn, most_on_cycle};
use row_types::R;
use std::alloc::Global;
use trace_text::Note;
use turn_notes::has_moved;
use workload::Item;

/// Plays an item, and answers its note. All memory is taken before the actor's turn: out of memory changes nothing.
pub fn step_parts(alloc: Global, item: Item, parts: &mut Parts) -> R<Note>
    requires { PartsKept parts.old }
    ensures note { IfOk result (λ note. note ≡ (move item (world_view parts.old)).note) }
    ensures ok { OnOk result (world_view parts.new ≡ stepped item (world_view parts.old)) }
    ensures err { OnErr result (world_view parts.new ≡ world_view parts.old) }
    ensures kept { PartsKept parts.new }
{
    let spare = Vec::with_capacity(alloc, most_on_cycle(item, parts))?;
    parts.journal.reserve(1)?;
    let note = item_turn(alloc, item, parts)?;
    let copy = copy_note(&note, spare);
    write_line(item, note, parts);
    Ok(copy)
}

/// Plays an item, and answers whether it moved. Out of memory changes nothing.
pub fn play_parts(alloc: Global, item: Item, parts: &mut Parts) -> R<bool>
    requires { PartsKept parts.old }
    ensures moved { IfOk result (λ moved. moved ≡ moves (move item (world_view parts.old)).note) }
    ensures ok { OnOk result (world_view parts.new ≡ stepped item (world_view parts.old)) }
    ensures err { OnErr result (world_view parts.new ≡ world_view parts.old) }
    ensures kept { PartsKept parts.new }
{
    parts.journal.reserve(1)?;
    let note = item_turn(alloc, item, parts)?;
    let moved = has_moved(&note);
    write_line(item, note, parts);
    Ok(moved)
}
