ghost use Rattle.std.specs.Prelude.{◌≡◌, IfErr, OnOk};
ghost use Rattle.world_model.specs.Rounds.{Reaches};
ghost use Rattle.world.specs.Runs.{RunsTo, Explains};
ghost use Rattle.world.specs.WorldParts.{world_view, PartsKept};

use crate::orders::order_of;
use crate::parts::Parts;
use crate::rounds::{play_round, play_schedule};
use row_types::Memory;
use std::alloc::Global;

/// Why a run did not come to its end.
#[derive(Clone, Copy, Debug, PartialEq, Eq)]
pub enum RunFault {
    /// It makes more moves than this, which is the limit.
    StepLimit { moves: u64 },
    Memory,
}

impl From<Memory> for RunFault {
    ghost use Rattle.world.specs.declared.runs.RunFault.TheVariants.{Memory as OutOfMemory};

    ghost from_gives = { λ _ e. e ≡ OutOfMemory };

    fn from(_error: Memory) -> RunFault {
        RunFault::Memory
    }
}

/// Plays what is left of the schedule, and then rounds until nobody moves.
pub fn run_parts(alloc: Global, parts: &mut Parts) -> Result<(), RunFault>
    requires { PartsKept parts.old }
    ensures ok { OnOk result (RunsTo (world_view parts.old) (world_view parts.new)) }
    ensures fault { IfErr result (Explains (world_view parts.old)) }
    ensures reaches { Reaches (world_view parts.old) (world_view parts.new) }
    ensures kept { PartsKept parts.new }
{
    if parts.options.most_moves < parts.moves {
        let moves = parts.options.most_moves;
        return Err(RunFault::StepLimit { moves });
    }
    play_schedule(alloc, parts)?;
    let turns = order_of(alloc, parts)?;
    'rounds: loop {
        if !play_round(alloc, turns.as_slice(), parts)? {
            return Ok(());
        }
    }
}
