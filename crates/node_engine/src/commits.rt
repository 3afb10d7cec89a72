ghost use Rattle.std.specs.Prelude.{◌≡◌, ◌≤◌, ◌+◌, ◌++◌, [], ◌∷◌, None, Some, cond, length, IfOk, OnOk, OnErr};
ghost use Rattle.std.specs.Option.{option_copied};
ghost use Rattle.history.specs.Replay.{position_of};
ghost use Rattle.node_model.specs.Txns.{txn_of, done_of};
ghost use Rattle.node_model.specs.Node.{is_written, logged, written};
ghost use Rattle.node_model.specs.Calls.{after_call, Commit as CommitCall};
ghost use Rattle.node_parts.specs.Kept.{node_view, PartsKept};
ghost use Rattle.node_parts.specs.KeptReads.{ReadsKept};
ghost use Rattle.node_engine.specs.Commits.{sums_in, commit_answer};
ghost use Rattle.node_reads.specs.Readings.{reading_of};
ghost use Rattle.node_reads.specs.CheckChanges.{checks_with};
ghost use Rattle.node_parts.specs.Views.{IsIdle};

use checksum_table::Checks;
use lock_table::Owner;
use node_model::Txns;
use node_parts::Parts;
use node_reads::{Reading, forget, read_in, set_checks};
use ptc_statement::{Statement, Statements};
use row_types::{Digest, R};
use statement_log::{Entry, Log, Origin};
use std::alloc::Global;

/// The logged statements of an owner's transaction become an entry of the history, and the transaction
/// and all that it holds are gone.
pub fn commit_parts(
    alloc: Global,
    owner: Owner,
    origin: Origin,
    parts: &mut Parts,
) -> R<Option<u64>>
    requires kept { PartsKept parts.old }
    requires reads { ReadsKept parts.old }
    requires idle { IsIdle owner.0 (node_view parts.old) }
    ensures answer { IfOk result (λ position. position ≡ commit_answer owner.0 origin (node_view parts.old)) }
    ensures ok { OnOk result (node_view parts.new ≡ after_call (CommitCall owner origin) (node_view parts.old)) }
    ensures err { OnErr result (node_view parts.new ≡ node_view parts.old) }
    ensures kept { PartsKept parts.new }
    ensures reads { ReadsKept parts.new }
{
    parts.history.reserve()?;
    let number = position_next(&parts.history, &origin);
    checks_now(
        alloc,
        owner,
        number,
        &mut parts.checks,
        &parts.txns,
        parts.reads.as_slice(),
    )?;
    let done = parts.txns.close(alloc, owner);
    let statements = logged(done);
    parts.locks.release(owner);
    parts.notes.forget(owner);
    forget(&mut parts.reads, owner);
    parts.applied = applied_after(parts.applied, &origin);
    let position = write_entry(&mut parts.history, origin, statements);
    Ok(position)
}

/// The position that an entry of this origin takes next.
fn position_next(history: &Log, origin: &Origin) -> u64
    ensures { result ≡ position_of (length history.now.entries + 1) origin.now }
{
    match origin {
        Origin::Applied(entry) => *entry,
        Origin::Session(_) | Origin::Checksum | Origin::Sync { .. } | Origin::Local(_) => {
            history.len() + 1
        }
    }
}

/// The check rows as the statements of an owner's transaction leave them, with the checksums that its
/// CHECKSUMs made.
fn checks_now(
    alloc: Global,
    owner: Owner,
    position: u64,
    checks: &mut Checks,
    txns: &Txns,
    reads: &[Reading],
) -> R<()>
    ensures ok { OnOk result (checks.new ≡ checks_with position (done_of (txn_of owner.0 txns.now)) (sums_in (reading_of owner.0 reads.now)) checks.old) }
    ensures err { OnErr result (checks.new ≡ checks.old) }
{
    match txns.get(owner) {
        None => Ok(()),
        Some(txn) => {
            let sums = sums_in(read_in(reads, owner));
            set_checks(alloc, checks, txn.done.as_slice(), sums, position)
        }
    }
}

fn sums_in(reading: Option<&Reading>) -> &[Digest]
    ensures { result.now ≡ sums_in (option_copied reading.entry) }
{
    match reading {
        None => &[],
        Some(reading) => reading.sums.as_slice(),
    }
}

/// The statements that stand in the log.
fn logged(statements: Statements) -> Statements
    ensures { result ≡ logged statements }
{
    let mut statements = statements;
    keep_logged(&mut statements.items);
    statements
}

fn keep_logged(statements: &mut Vec<Statement>)
    ensures { statements.new.items ≡ logged statements.old.items }
{
    statements.retain(|statement| statement.is_logged());
}

/// The last entry of the source's log that is applied, after an item of this origin.
fn applied_after(applied: u64, origin: &Origin) -> u64
    ensures { result ≡ position_of applied origin.now }
{
    match origin {
        Origin::Applied(entry) => *entry,
        Origin::Session(_) | Origin::Checksum | Origin::Sync { .. } | Origin::Local(_) => applied,
    }
}

/// Whether an entry is written: one without statements is not, of a session.
fn is_written(origin: &Origin, statements: &Statements) -> bool
    ensures { result ≡ is_written origin.now statements.now }
{
    match origin {
        Origin::Session(_) | Origin::Local(_) => !statements.is_empty(),
        Origin::Checksum | Origin::Sync { .. } | Origin::Applied(_) => true,
    }
}

/// Writes the entry of a transaction, if one is written, in the reserved capacity of the log.
fn write_entry(history: &mut Log, origin: Origin, statements: Statements) -> Option<u64>
    requires { 1 ≤ history.old.spare }
    ensures entries { history.new.entries ≡ history.old.entries ++ written origin statements }
    ensures position { result ≡ cond (is_written origin statements) (Some (length history.old.entries + 1)) None }
{
    if !is_written(&origin, &statements) {
        return None;
    }
    Some(append_reserved(history, Entry { origin, statements }))
}

/// Puts an entry at the end of a log that has room for it, and answers its position.
pub fn append_reserved(history: &mut Log, entry: Entry) -> u64
    requires { 1 ≤ history.old.spare }
    ensures entries { history.new.entries ≡ history.old.entries ++ entry ∷ [] }
    ensures position { result ≡ length history.old.entries + 1 }
{
    match history.append(entry) {
        Ok(position) => position,
        Err(_) => unreachable!(),
    }
}
