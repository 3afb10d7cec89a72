ghost use Rattle.std.specs.Prelude.{◌≡◌, IfOk, OnOk, OnErr};
ghost use Rattle.ptc_statement.specs.Fits.{FitsSchemas};
ghost use Rattle.node_model.specs.Node.{start_of};
ghost use Rattle.node_model.specs.Calls.{after_call, Visit as VisitCall, Start as StartCall};
ghost use Rattle.node_parts.specs.Kept.{node_view, PartsKept};
ghost use Rattle.node_parts.specs.KeptReads.{ReadsKept};
ghost use Rattle.node_parts.specs.Views.{IsUnderWay, IsIdle};
ghost use Rattle.node_visits.specs.Answers.{visit_answer};
ghost use Rattle.node_visits.specs.NextStarts.{next_walk, IsReady, with_next, next_started};

use crate::visits::{Visit, visit_parts};
use lock_table::Owner;
use node_model::Walk;
use node_parts::{Parts, start_at, start_of, start_parts};
use ptc_statement::Statement;
use row_types::{R, Schemas};
use std::alloc::Global;

/// The visit of an owner's statement in progress and, where this is done with it, the start of a further
/// statement.
pub fn visit_and_start_parts(
    alloc: Global,
    owner: Owner,
    next: Statement,
    parts: &mut Parts,
) -> R<Visit>
    requires kept { PartsKept parts.old }
    requires reads { ReadsKept parts.old }
    requires under_way { IsUnderWay owner.0 (node_view parts.old) }
    requires fits { FitsSchemas parts.old.schemas.tables next }
    ensures answer { IfOk result (λ answer. answer ≡ visit_answer owner.0 (node_view parts.old)) }
    ensures ok { OnOk result (node_view parts.new ≡ next_started (visit_answer owner.0 (node_view parts.old)) owner next (after_call (VisitCall owner) (node_view parts.old))) }
    ensures err { OnErr result (node_view parts.new ≡ node_view parts.old) }
    ensures kept { PartsKept parts.new }
    ensures reads { ReadsKept parts.new }
{
    let walk = walk_of(alloc, next, &parts.schemas)?;
    let answer = visit_parts(alloc, owner, parts);
    go_on(owner, answer, walk, parts)
}

/// A statement whose walk begins.
fn walk_of(alloc: Global, statement: Statement, schemas: &Schemas) -> R<Walk>
    ensures { IfOk result (λ walk. walk ≡ record { statement = statement; cursor = start_of schemas.now.tables statement }) }
{
    let cursor = start_of(alloc, &statement, schemas)?;
    Ok(Walk { statement, cursor })
}

/// Begins the walk where the visit before was done with its statement, without memory.
fn go_on(owner: Owner, answer: R<Visit>, walk: Walk, parts: &mut Parts) -> R<Visit>
    requires kept { PartsKept parts.old }
    requires reads { ReadsKept parts.old }
    requires ready { IfOk answer (λ visit. IsReady (next_walk visit walk) owner.0 (node_view parts.old)) }
    ensures same { result ≡ answer }
    ensures ok { IfOk answer (λ visit. node_view parts.new ≡ with_next (next_walk visit walk) owner (node_view parts.old)) }
    ensures err { OnErr answer (node_view parts.new ≡ node_view parts.old) }
    ensures kept { PartsKept parts.new }
    ensures reads { ReadsKept parts.new }
{
    match answer {
        Err(error) => Err(error),
        Ok(visit) => {
            let ready = kept_if_done(&visit, walk);
            start_next(owner, ready, parts);
            Ok(visit)
        }
    }
}

/// The next walk, where the visit was done with its statement.
fn kept_if_done(answer: &Visit, walk: Walk) -> Option<Walk>
    ensures { result ≡ next_walk answer.now walk }
{
    match answer {
        Visit::Stepped => None,
        Visit::Done => Some(walk),
        Visit::Duplicate { .. } => None,
        Visit::Waits { .. } => None,
        Visit::Deadlock { .. } => None,
    }
}

fn start_next(owner: Owner, next: Option<Walk>, parts: &mut Parts)
    requires kept { PartsKept parts.old }
    requires reads { ReadsKept parts.old }
    requires ready { IsReady next owner.0 (node_view parts.old) }
    ensures view { node_view parts.new ≡ with_next next owner (node_view parts.old) }
    ensures kept { PartsKept parts.new }
    ensures reads { ReadsKept parts.new }
{
    match next {
        None => {}
        Some(walk) => start_at(owner, walk.statement, walk.cursor, parts),
    }
}

/// The start of a statement and its first visit.
pub fn start_and_visit_parts(
    alloc: Global,
    owner: Owner,
    statement: Statement,
    parts: &mut Parts,
) -> R<Visit>
    requires kept { PartsKept parts.old }
    requires reads { ReadsKept parts.old }
    requires idle { IsIdle owner.0 (node_view parts.old) }
    requires fits { FitsSchemas parts.old.schemas.tables statement }
    ensures answer { IfOk result (λ answer. answer ≡ visit_answer owner.0 (after_call (StartCall owner statement) (node_view parts.old))) }
    ensures ok { OnOk result (node_view parts.new ≡ after_call (VisitCall owner) (after_call (StartCall owner statement) (node_view parts.old))) }
    ensures err { OnErr result (node_view parts.new ≡ node_view parts.old) }
    ensures kept { PartsKept parts.new }
    ensures reads { ReadsKept parts.new }
{
    start_parts(alloc, owner, statement, parts)?;
    match visit_parts(alloc, owner, parts) {
        Ok(answer) => Ok(answer),
        Err(error) => {
            parts.txns.withdraw(owner);
            Err(error)
        }
    }
}
