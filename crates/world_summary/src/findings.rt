//! What is worked out from the nodes and the sessions of a world.
ghost use Rattle.std.specs.Prelude.{◌≡◌, ◌∷◌, ◌++◌, ◌<◌, ◌^◌, map, length, IfOk, OnOk};
ghost use Rattle.std.specs.List.{AllByRecursion};
ghost use Rattle.world_model.specs.Summary.{final_rows, verdicts_from, equals_from, local_duplicates_from, local_abandoned_from};
ghost use Rattle.world_summary.specs.Told.{IsSmall, rows_of, duplicates_in, abandoned_in, findings_of};

use crate::covers::covers_all;
use crate::scripts::{add_abandoned, add_duplicates};
use crate::tables::{add_equals, final_tables};
use crate::verdicts::add_verdicts;
use checksum_table::Checks;
use node_engine::Node;
use report_text::{EqualLines, NodeTables, VerdictLines};
use row_types::{R, Tables};
use session::Session;
use std::alloc::Global;
use trace_text::{AbandonedLines, DuplicateLines};
use turn_notes::Place;
use world::Replica;

/// The rows that the histories of all nodes leave, and which tables are equal.
#[derive(Debug, Drop)]
pub struct FinalRows {
    pub finals: NodeTables,
    pub equal: EqualLines,
}

/// What is told of a world beside its histories and its journal, and whether check rows cover each table.
#[derive(Debug, Drop)]
pub struct Findings {
    pub verdicts: VerdictLines,
    pub rows: FinalRows,
    pub duplicates: DuplicateLines,
    pub abandoned: AbandonedLines,
    pub covered: bool,
}

/// The verdicts on each replica.
fn verdicts(alloc: Global, source: &Checks, replicas: &[Replica]) -> R<VerdictLines>
    requires { length replicas.now < 2 ^ 31 }
    ensures { IfOk result (λ lines. lines ≡ verdicts_from 1 source.now replicas.now) }
{
    let mut lines = VerdictLines::new(alloc);
    let (mut rest, mut number) = (replicas, 1u32);
    while let Some((replica, more)) = rest.split_first() {
        add_verdicts(alloc, &mut lines, number, source, replica.node().checks())?;
        rest = more;
        number += 1;
    }
    Ok(lines)
}

/// The rows that the histories of replicas leave.
fn replica_finals(alloc: Global, replicas: &[Replica]) -> R<NodeTables>
    requires { AllByRecursion IsSmall replicas.now }
    ensures { IfOk result (λ finals. finals ≡ map final_rows replicas.now) }
{
    let mut finals = NodeTables::new(alloc);
    let mut rest = replicas;
    while let Some((replica, more)) = rest.split_first() {
        finals.push(final_tables(alloc, replica.node())?)?;
        rest = more;
    }
    Ok(finals)
}

/// Which tables of each replica have the source's rows.
fn equals(alloc: Global, source: &Tables, replicas: &[Tables]) -> R<EqualLines>
    requires tables { length source.now < 2 ^ 31 }
    requires replicas { length replicas.now < 2 ^ 31 }
    ensures { IfOk result (λ lines. lines ≡ equals_from 1 source.now replicas.now) }
{
    let mut lines = EqualLines::new(alloc);
    let (mut rest, mut number) = (replicas, 1u32);
    while let Some((tables, more)) = rest.split_first() {
        add_equals(&mut lines, number, source.as_slice(), tables.as_slice())?;
        rest = more;
        number += 1;
    }
    Ok(lines)
}

/// Puts the source's rows before those of the replicas.
fn put_first(nodes: &mut NodeTables, source: Tables) -> R<()>
    ensures { OnOk result (nodes.new ≡ source ∷ nodes.old) }
{
    nodes.items.insert(0, source)?;
    Ok(())
}

/// The rows that the histories of all nodes leave, and which tables are equal.
fn final_rows_of(alloc: Global, source: &Node, replicas: &[Replica]) -> R<FinalRows>
    requires tables { length source.now.schemas < 2 ^ 31 }
    requires replicas { length replicas.now < 2 ^ 31 }
    requires small { AllByRecursion IsSmall replicas.now }
    ensures { IfOk result (λ rows. rows ≡ rows_of source.now replicas.now) }
{
    let rows = final_tables(alloc, source)?;
    let mut finals = replica_finals(alloc, replicas)?;
    let equal = equals(alloc, &rows, finals.as_slice())?;
    put_first(&mut finals, rows)?;
    Ok(FinalRows { finals, equal })
}

/// Appends the lines that were refused of the local sessions of replicas.
fn add_local_duplicates(lines: &mut DuplicateLines, replicas: &[Replica]) -> R<()>
    requires few { length replicas.now < 2 ^ 31 }
    requires small { AllByRecursion IsSmall replicas.now }
    ensures { OnOk result (lines.new ≡ lines.old ++ local_duplicates_from 1 replicas.now) }
{
    let (mut rest, mut number) = (replicas, 1u32);
    while let Some((replica, more)) = rest.split_first() {
        add_duplicates(lines, Place::Replica(number), replica.locals())?;
        rest = more;
        number += 1;
    }
    Ok(())
}

/// Appends the transactions that the local sessions of replicas abandoned.
fn add_local_abandoned(lines: &mut AbandonedLines, replicas: &[Replica]) -> R<()>
    requires few { length replicas.now < 2 ^ 31 }
    requires small { AllByRecursion IsSmall replicas.now }
    ensures { OnOk result (lines.new ≡ lines.old ++ local_abandoned_from 1 replicas.now) }
{
    let (mut rest, mut number) = (replicas, 1u32);
    while let Some((replica, more)) = rest.split_first() {
        add_abandoned(lines, Place::Replica(number), replica.locals())?;
        rest = more;
        number += 1;
    }
    Ok(())
}

/// The lines that were refused of all sessions.
fn duplicates(alloc: Global, sessions: &[Session], replicas: &[Replica]) -> R<DuplicateLines>
    requires sessions { length sessions.now < 2 ^ 31 }
    requires replicas { length replicas.now < 2 ^ 31 }
    requires small { AllByRecursion IsSmall replicas.now }
    ensures { IfOk result (λ lines. lines ≡ duplicates_in sessions.now replicas.now) }
{
    let mut lines = DuplicateLines::new(alloc);
    add_duplicates(&mut lines, Place::Source, sessions)?;
    add_local_duplicates(&mut lines, replicas)?;
    Ok(lines)
}

/// The transactions that all sessions abandoned.
fn abandoned(alloc: Global, sessions: &[Session], replicas: &[Replica]) -> R<AbandonedLines>
    requires sessions { length sessions.now < 2 ^ 31 }
    requires replicas { length replicas.now < 2 ^ 31 }
    requires small { AllByRecursion IsSmall replicas.now }
    ensures { IfOk result (λ lines. lines ≡ abandoned_in sessions.now replicas.now) }
{
    let mut lines = AbandonedLines::new(alloc);
    add_abandoned(&mut lines, Place::Source, sessions)?;
    add_local_abandoned(&mut lines, replicas)?;
    Ok(lines)
}

/// What is worked out from the nodes and the sessions of a world.
pub fn find_all(
    alloc: Global,
    source: &Node,
    sessions: &[Session],
    replicas: &[Replica],
) -> R<Findings>
    requires tables { length source.now.schemas < 2 ^ 31 }
    requires sessions { length sessions.now < 2 ^ 31 }
    requires replicas { length replicas.now < 2 ^ 31 }
    requires small { AllByRecursion IsSmall replicas.now }
    ensures { IfOk result (λ findings. findings ≡ findings_of source.now sessions.now replicas.now) }
{
    let verdicts = verdicts(alloc, source.checks(), replicas)?;
    let rows = final_rows_of(alloc, source, replicas)?;
    let duplicates = duplicates(alloc, sessions, replicas)?;
    let abandoned = abandoned(alloc, sessions, replicas)?;
    let tables = source.schemas().tables.len() as u32;
    let covered = covers_all(source.checks().as_slice(), tables);
    Ok(Findings {
        verdicts,
        rows,
        duplicates,
        abandoned,
        covered,
    })
}
