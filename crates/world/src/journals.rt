ghost use Rattle.std.specs.Prelude.{◌≡◌, ◌≤◌, ◌<◌, ◌+◌, ◌^◌, ◌++◌, ◌∷◌, [], vec_len, vec_capacity};
ghost use Rattle.turn_notes.specs.Notes.{has_moved as moves};
ghost use Rattle.world_model.specs.Turns.{is_written, line_of, written_if};
ghost use Rattle.world_model.specs.Rounds.{moves_in};
ghost use Rattle.world.specs.WorldParts.{world_view};

use crate::parts::Parts;
use trace_text::{JournalLine, Note};
use turn_notes::has_moved;
use workload::Item;

/// Puts a line behind the others, where there is reserved capacity for it.
fn put_last(journal: &mut Vec<JournalLine>, line: JournalLine)
    requires { vec_len journal.old < vec_capacity journal.old }
    ensures { journal.new.items ≡ journal.old.items ++ line ∷ [] }
{
    match journal.push(line) {
        Ok(()) => {}
        Err(_) => unreachable!(),
    }
}

/// Writes a line, where there is reserved capacity for it, and counts it where it tells of a move.
#[tactic(auto, using(crate::proofs::JournalLemmas::counted_move, crate::proofs::JournalLemmas::counted_still))]
fn put_line(item: Item, note: Note, parts: &mut Parts)
    requires room { vec_len parts.old.journal < vec_capacity parts.old.journal }
    requires moves { parts.old.moves ≡ moves_in parts.old.journal.items }
    requires few { parts.old.moves < 2 ^ 63 }
    ensures line { world_view parts.new ≡ record (world_view parts.old) { journal = parts.old.journal.items ++ line_of item note ∷ [] } }
    ensures moves { parts.new.moves ≡ moves_in parts.new.journal.items }
{
    let moved = has_moved(&note);
    put_last(&mut parts.journal, JournalLine { item, note });
    if moved {
        parts.moves += 1;
    }
}

/// Writes the line of an item that was played, where it is to be written and there is reserved capacity for it: items
/// of the schedule, and what moved behind them.
#[tactic(auto, using(crate::proofs::JournalLemmas::moves_few))]
pub fn write_line(item: Item, note: Note, parts: &mut Parts)
    requires room { vec_len parts.old.journal < vec_capacity parts.old.journal }
    requires moves { parts.old.moves ≡ moves_in parts.old.journal.items }
    ensures line { world_view parts.new ≡ written_if (is_written (world_view parts.old) note) (line_of item note) (world_view parts.old) }
    ensures moves { parts.new.moves ≡ moves_in parts.new.journal.items }
{
    if parts.journal.len() < parts.schedule.len() || has_moved(&note) {
        put_line(item, note, parts);
    }
}
