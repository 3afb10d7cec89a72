ghost use Rattle.std.specs.Prelude.{◌≡◌, ◌<◌, ◌∷◌, List, length, IfOk};
ghost use Rattle.file_text.specs.Said.{Said};
ghost use Rattle.file_text.specs.File.{contents_of};
ghost use Rattle.file_state.specs.Keeps.{Keeps, IsKept};
ghost use Rattle.workload.specs.Gives.{Gives};

use crate::node_tables::node_tables;
use file_scripts::split_scripts;
use file_state::FileState;
use row_types::{R, Tables};
use std::alloc::Global;
use workload::{Copies, Workload};

/// The first node's tables, and those of the others.
fn parted(nodes: Copies) -> (Tables, Copies)
    requires { 0 < length nodes }
    ensures { nodes ≡ result.0 ∷ result.1 }
{
    let mut nodes = nodes.items;
    let source = nodes.remove(0);
    (source, Copies { items: nodes })
}

/// The workload that the lines of a file give, of what they leave; no row is copied.
#[tactic(auto, using(crate::proofs::GiveLemmas::replicas_fit))]
pub(crate) fn workload_of(alloc: Global, state: FileState) -> R<Workload>
    requires { IsKept state }
    ensures { IfOk result (λ workload. (said : List Said) → Keeps state said → Gives (contents_of said) workload) }
{
    let replicas = state.marks.replicas;
    let nodes = node_tables(alloc, replicas + 1, state.rows.tables)?;
    let split = split_scripts(alloc, replicas, state.scripts)?;
    let (source, copies) = parted(nodes);
    Ok(Workload {
        schemas: state.schemas,
        replicas,
        source,
        copies,
        sessions: split.sessions,
        locals: split.locals,
        schedule: state.schedule.into_schedule(),
    })
}
