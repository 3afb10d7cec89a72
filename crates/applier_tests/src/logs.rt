//! Logs of a source, whose statements fit the node's table.
ghost use Rattle.std.specs.Prelude.{IfOk};
ghost use Rattle.std.specs.List.{AllByRecursion};
ghost use Rattle.ptc_statement.specs.Fits.{FitsSchemas};
ghost use Rattle.node_builders.specs.Nodes.{one_table};
ghost use Rattle.applier.specs.Appliers.{LogFits};

use crate::steps::Sample;
use node_builders::{delete_rows, insert_row, read_between};
use ptc_statement::{Statement, Statements};
use row_types::{Memory, R};
use statement_log::{Entry, Log, Origin};
use std::alloc::Global;

pub(crate) fn statement(alloc: Global, sample: Sample) -> R<Statement>
    ensures { IfOk result (λ statement. FitsSchemas one_table statement) }
{
    match sample {
        Sample::Insert(id) => insert_row(alloc, id, 0),
        Sample::Clear => Ok(delete_rows()),
        Sample::Read(above, below) => read_between(alloc, above, below),
    }
}

#[tactic(auto, using(crate::proofs::ReplicaLemmas::one_statement))]
fn push_statement(alloc: Global, statements: &mut Statements, sample: Sample) -> R<()>
    requires { AllByRecursion (FitsSchemas one_table) statements.old }
    ensures { AllByRecursion (FitsSchemas one_table) statements.new }
{
    statements.push(statement(alloc, sample)?)
}

fn statements(alloc: Global, samples: &[Sample]) -> R<Statements>
    ensures { IfOk result (λ statements. AllByRecursion (FitsSchemas one_table) statements) }
{
    let mut statements = Statements::new(alloc);
    for sample in samples {
        push_statement(alloc, &mut statements, *sample)?;
    }
    Ok(statements)
}

#[tactic(auto, using(crate::proofs::ReplicaLemmas::one_entry))]
fn push_entry(log: &mut Log, statements: Statements) -> R<()>
    requires statements { AllByRecursion (FitsSchemas one_table) statements }
    requires log { LogFits one_table log.old.entries }
    ensures { LogFits one_table log.new.entries }
{
    let origin = Origin::Session(1);
    match log.append(Entry { origin, statements }) {
        Ok(_) => Ok(()),
        Err(_) => Err(Memory),
    }
}

/// A log of these entries.
pub(crate) fn log_of(alloc: Global, entries: &[&[Sample]]) -> R<Log>
    ensures { IfOk result (λ log. LogFits one_table log.entries) }
{
    let mut log = Log::new(alloc);
    for samples in entries {
        push_entry(&mut log, statements(alloc, samples)?)?;
    }
    Ok(log)
}
