//! What the report on a run says.
ghost use Rattle.std.specs.Prelude.{◌≡◌, ◌<◌, ◌^◌, length, IfOk};
ghost use Rattle.std.specs.List.{AllByRecursion};
ghost use Rattle.world_model.specs.Summary.{summary_of};
ghost use Rattle.world_model.specs.Rounds.{IsBehindSchedule, IsStill};
ghost use Rattle.world_summary.specs.Told.{IsSmall, told as all_told};

use crate::findings::find_all;
use crate::node_ends::parts_of_nodes;
use crate::statuses::status;
use crate::unfinished::unfinished;
use row_types::R;
use run_report::RunSummary;
use std::alloc::Global;
use trace_text::UnfinishedLines;
use world::{World, WorldParts};

/// What is told of the parts of a world.
fn told(alloc: Global, parts: WorldParts, unfinished: UnfinishedLines) -> R<RunSummary>
    requires tables { length parts.source.schemas < 2 ^ 31 }
    requires sessions { length parts.sessions.items < 2 ^ 31 }
    requires replicas { length parts.replicas.items < 2 ^ 31 }
    requires small { AllByRecursion IsSmall parts.replicas.items }
    ensures { IfOk result (λ summary. summary ≡ all_told parts.source parts.sessions.items parts.replicas.items parts.journal unfinished) }
{
    let found = find_all(
        alloc,
        &parts.source,
        parts.sessions.as_slice(),
        parts.replicas.as_slice(),
    )?;
    let status = status(
        found.verdicts.as_slice(),
        unfinished.as_slice(),
        found.covered,
    );
    let nodes = parts_of_nodes(alloc, parts.source, parts.replicas)?;
    Ok(RunSummary {
        schemas: nodes.schemas,
        start: nodes.start,
        journal: parts.journal,
        log: nodes.log,
        histories: nodes.histories,
        verdicts: found.verdicts,
        finals: found.rows.finals,
        equal: found.rows.equal,
        duplicates: found.duplicates,
        abandoned: found.abandoned,
        unfinished,
        status,
    })
}

/// What the report says of a world behind its schedule in which nobody can move. The start rows, the histories and the
/// journal are moved out of it.
pub fn summary(alloc: Global, world: World) -> R<RunSummary>
    requires behind { IsBehindSchedule world }
    requires still { IsStill world }
    ensures { IfOk result (λ summary. summary ≡ summary_of world) }
{
    world.keeps_fits();
    let mut world = world;
    let unfinished = unfinished(alloc, &mut world)?;
    told(alloc, world.into_parts(), unfinished)
}
