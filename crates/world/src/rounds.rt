ghost use Rattle.std.specs.Prelude.{◌≡◌, ◌≤◌, IfOk, IfErr, OnOk};
ghost use Rattle.turn_notes.specs.Notes.{has_moved as moves};
ghost use Rattle.world_model.specs.Turns.{move, unplayed, stepped};
ghost use Rattle.std.specs.List.{slice_get};
ghost use Rattle.world_model.specs.Rounds.{order, round, behind_schedule, moves_in, IsBehindSchedule, Reaches};
ghost use Rattle.world.specs.WorldParts.{world_view, PartsKept};
ghost use Rattle.world.specs.Plays.{Stops, RoundTaken, IsCut};

use crate::parts::Parts;
use crate::runs::RunFault;
use crate::steps::play_parts;
use std::alloc::Global;
use workload::Item;

/// Plays an item, and answers whether it moved; the first move too many is the last that is made.
fn play_within(alloc: Global, item: Item, parts: &mut Parts) -> Result<bool, RunFault>
    requires { PartsKept parts.old }
    ensures moved { IfOk result (λ moved. moved ≡ moves (move item (world_view parts.old)).note) }
    ensures ok { OnOk result (world_view parts.new ≡ stepped item (world_view parts.old)) }
    ensures few { OnOk result (moves_in parts.new.journal.items ≤ parts.old.options.most_moves) }
    ensures fault { IfErr result (Stops item (world_view parts.old) (world_view parts.new)) }
    ensures kept { PartsKept parts.new }
{
    let moved = play_parts(alloc, item, parts)?;
    if parts.options.most_moves < parts.moves {
        let moves = parts.options.most_moves;
        return Err(RunFault::StepLimit { moves });
    }
    Ok(moved)
}

/// The next item of the schedule that is to be played.
fn next_item(parts: &Parts) -> Option<Item>
    ensures { result ≡ slice_get (unplayed (world_view parts.now)) 0 }
{
    parts.schedule.as_slice().get(parts.journal.len()).copied()
}

/// Plays what is left of the schedule, up to the first move too many.
pub fn play_schedule(alloc: Global, parts: &mut Parts) -> Result<(), RunFault>
    requires kept { PartsKept parts.old }
    requires few { moves_in parts.old.journal.items ≤ parts.old.options.most_moves }
    ensures ok { OnOk result (world_view parts.new ≡ behind_schedule (world_view parts.old)) }
    ensures few { OnOk result (moves_in parts.new.journal.items ≤ parts.new.options.most_moves) }
    ensures fault { IfErr result (IsCut (world_view parts.old) (behind_schedule (world_view parts.old))) }
    ensures reaches { Reaches (world_view parts.old) (world_view parts.new) }
    ensures kept { PartsKept parts.new }
{
    while let Some(item) = next_item(parts) {
        play_within(alloc, item, parts)?;
    }
    Ok(())
}

/// Plays a round behind the schedule, up to the first move too many, and answers whether somebody moved.
pub fn play_round(alloc: Global, turns: &[Item], parts: &mut Parts) -> Result<bool, RunFault>
    requires kept { PartsKept parts.old }
    requires turns { turns.now ≡ order (world_view parts.old) }
    requires behind { IsBehindSchedule (world_view parts.old) }
    requires few { moves_in parts.old.journal.items ≤ parts.old.options.most_moves }
    ensures ok { IfOk result (λ moved. RoundTaken moved (world_view parts.old) (world_view parts.new)) }
    ensures few { OnOk result (moves_in parts.new.journal.items ≤ parts.new.options.most_moves) }
    ensures fault { IfErr result (IsCut (world_view parts.old) (round (world_view parts.old))) }
    ensures reaches { Reaches (world_view parts.old) (world_view parts.new) }
    ensures kept { PartsKept parts.new }
{
    let mut moved = false;
    let mut rest = turns;
    while let Some((item, more)) = rest.split_first() {
        let step = play_within(alloc, *item, parts)?;
        moved = moved | step;
        rest = more;
    }
    Ok(moved)
}
