ghost use Rattle.std.specs.Prelude.{◌≡◌, ◌<◌, ◌+◌, ◌^◌, IfOk};
ghost use Rattle.std.specs.Option.{option_copied};
ghost use Rattle.node_reads.specs.Gains.{CanBeAdded, gain_of, taken_at, sum_with};

use ptc_statement::{Cond, Statement, takes};
use row_digest::add;
use row_types::{Digest, DigestKind, Memory, R, Row, Schema};
use std::alloc::Global;

/// What a visit adds to what its statement has read.
#[derive(Debug, Drop)]
pub enum Gain {
    /// Its statement reads nothing.
    Nothing,
    /// A locking read takes this row, or none.
    Row(Option<Row>),
    /// A CHECKSUM's checksum with the row that it met.
    Sum(Digest),
}

/// What a statement reads of a row, or none, that it meets, where the checksum so far is this one.
pub fn gain_of(
    alloc: Global,
    statement: &Statement,
    schema: &Schema,
    row: Option<&Row>,
    sum: Digest,
) -> R<Gain>
    requires { CanBeAdded (option_copied row) }
    ensures { IfOk result (λ gain. gain ≡ gain_of schema.now statement.now (option_copied row.entry) sum) }
{
    match statement {
        Statement::LockRead { cond, .. } => Ok(Gain::Row(taken_at(alloc, schema, cond, row)?)),
        Statement::Check { kind, .. } => Ok(Gain::Sum(sum_with(alloc, *kind, row, sum)?)),
        _ => Ok(Gain::Nothing),
    }
}

/// A copy of the row, where the condition takes it.
fn taken_at(
    alloc: Global,
    schema: &Schema,
    cond: &Option<Cond>,
    row: Option<&Row>,
) -> R<Option<Row>>
    ensures { IfOk result (λ taken. taken ≡ taken_at schema.now cond.now (option_copied row.entry)) }
{
    match row {
        None => Ok(None),
        Some(row) => {
            if takes(schema, cond, row) {
                return Ok(Some(row.copy(alloc)?));
            }
            Ok(None)
        }
    }
}

/// The checksum with a row, if there is one. A count at its end, which no table comes near, is out of
/// memory.
fn sum_with(alloc: Global, kind: DigestKind, row: Option<&Row>, sum: Digest) -> R<Digest>
    requires { CanBeAdded (option_copied row) }
    ensures { IfOk result (λ with. with ≡ sum_with kind (option_copied row.entry) sum) }
{
    match row {
        None => Ok(sum),
        Some(row) => {
            if sum.count == u64::MAX {
                return Err(Memory);
            }
            let mut with = sum;
            add(alloc, &mut with, kind, row)?;
            Ok(with)
        }
    }
}
