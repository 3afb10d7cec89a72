ghost use Rattle.std.specs.Prelude.{◌≡◌, ◌≤◌, ◌+◌, None, Some, option_map, IfSome, IfOk, OnOk, OnErr};
ghost use Rattle.lock_table.specs.Locks.{excluder, with_wants, IsLock};
ghost use Rattle.node_model.specs.Node.{plan_excluder, is_duplicate, is_insert, is_client, asked, empty_plan, with_gap, with_lock};
ghost use Rattle.ptc_statement.specs.Effect.{table_of};
ghost use Rattle.node_model.specs.Waits.{next_wait};
ghost use Rattle.node_model.specs.Calls.{after_call, Visit as VisitCall};
ghost use Rattle.node_parts.specs.Kept.{node_view, PartsKept};
ghost use Rattle.node_parts.specs.KeptReads.{ReadsKept};
ghost use Rattle.node_visits.specs.ReadDues.{row_under, HasGain};
ghost use Rattle.node_reads.specs.Readings.{HasRoomOf};
ghost use Rattle.std.specs.List.{slice_get};
ghost use Rattle.std.specs.Option.{option_copied};
ghost use Rattle.node_parts.specs.Views.{IsUnderWay};
ghost use Rattle.node_visits.specs.Answers.{visit_answer, duplicate_key, answer_of};
ghost use Rattle.node_visits.specs.Dues.{plan_in, change_in, IsDue, HasTable, IsWithin, HasRoomFor, HasRoomAt, IsRoomier, CanWrite, CanWriteAt, IsWritten, IsWrittenAt, IsFree, lock_wanted};
ghost use Rattle.row_types.specs.declared.lock_modes.LockMode.TheVariants.{Exclusive};

use crate::cycles::{cycle_in, victim_in};
use lock_table::{LockTable, Owner, Owners, Want};
use node_model::{Part, Walk};
use node_parts::{Change, Notes, Parts, change_noted, rollback_parts};
use node_reads::{Gain, gain_of, grow_of, read_in, reserve_of};
use ordered_table::Table;
use ptc_statement::{Statement, act};
use row_types::{Edge, Key, LockMode, R, Row, Schemas, Span};
use std::alloc::Global;
use txn_walk::{Plan, next_plan};

/// What a visit answers.
#[derive(Debug, Drop)]
pub enum Visit {
    /// The statement came a step further.
    Stepped,
    /// The statement is done.
    Done,
    /// A client's INSERT met a live row at this key. Its lock stays; the statement is not in the
    /// transaction.
    Duplicate { key: Key },
    /// The least other owner whose lock excludes the one that is wanted. Nothing changed.
    Waits { by: Owner },
    /// Waiting would close a cycle of owners, each of which waits for the next and the last for the first, the
    /// visit's own. The victim's transaction is rolled back: it is that owner or, where it applies an
    /// entry, the first on the cycle that applies none.
    Deadlock { victim: Owner, cycle: Owners },
}

/// The next visit of an owner: its plan, who excludes it, whether it is refused and at which key, and the
/// change that it makes.
#[derive(Drop)]
pub struct Due {
    pub number: u32,
    pub plan: Plan,
    pub by: Option<Owner>,
    pub refused: bool,
    pub duplicate: Option<Key>,
    pub change: Option<Change>,
}

/// The visit of an owner's statement in progress.
pub fn visit_parts(alloc: Global, owner: Owner, parts: &mut Parts) -> R<Visit>
    requires kept { PartsKept parts.old }
    requires reads { ReadsKept parts.old }
    requires under_way { IsUnderWay owner.0 (node_view parts.old) }
    ensures answer { IfOk result (λ answer. answer ≡ visit_answer owner.0 (node_view parts.old)) }
    ensures ok { OnOk result (node_view parts.new ≡ after_call (VisitCall owner) (node_view parts.old)) }
    ensures err { OnErr result (node_view parts.new ≡ node_view parts.old) }
    ensures kept { PartsKept parts.new }
    ensures reads { ReadsKept parts.new }
{
    make_read_room(parts, owner)?;
    let due = due_now(alloc, owner, parts)?;
    if let Some(by) = due.by {
        return wait_or_break(alloc, owner, by, &due, parts);
    }
    let gain = gain_now(alloc, owner, &due.plan.on_key, parts)?;
    make_room(parts, &due.change)?;
    settle(alloc, parts, owner, due, gain)
}

/// The answer of an owner that waits; where following waits comes back to it the victim is rolled back.
fn wait_or_break(alloc: Global, owner: Owner, by: Owner, due: &Due, parts: &mut Parts) -> R<Visit>
    requires kept { PartsKept parts.old }
    requires reads { ReadsKept parts.old }
    requires due { IsDue owner.0 (node_view parts.old) due.now }
    requires by { due.now.by ≡ Some by }
    ensures answer { IfOk result (λ answer. answer ≡ visit_answer owner.0 (node_view parts.old)) }
    ensures ok { OnOk result (node_view parts.new ≡ after_call (VisitCall owner) (node_view parts.old)) }
    ensures err { OnErr result (node_view parts.new ≡ node_view parts.old) }
    ensures kept { PartsKept parts.new }
    ensures reads { ReadsKept parts.new }
{
    match cycle_in(alloc, owner, parts)? {
        None => Ok(Visit::Waits { by }),
        Some(cycle) => {
            let victim = victim_in(&parts.txns, owner, cycle.as_slice());
            rollback_parts(victim, parts);
            Ok(Visit::Deadlock { victim, cycle })
        }
    }
}

/// Makes room for what a visit of an owner reads.
fn make_read_room(parts: &mut Parts, owner: Owner) -> R<()>
    requires kept { PartsKept parts.old }
    requires reads { ReadsKept parts.old }
    requires under_way { IsUnderWay owner.0 (node_view parts.old) }
    ensures room { OnOk result (HasRoomOf owner.0 parts.new.reads.items) }
    ensures view { node_view parts.new ≡ node_view parts.old }
    ensures kept { PartsKept parts.new }
    ensures reads { ReadsKept parts.new }
{
    reserve_of(&mut parts.reads, owner)?;
    Ok(())
}

/// What an owner's statement in progress reads at the key of its visit.
fn gain_now(alloc: Global, owner: Owner, on_key: &Option<(Key, LockMode)>, parts: &Parts) -> R<Gain>
    requires kept { PartsKept parts.now }
    requires reads { ReadsKept parts.now }
    requires under_way { IsUnderWay owner.0 (node_view parts.now) }
    ensures { IfOk result (λ gain. HasGain owner.0 (node_view parts.now) parts.now.reads.items on_key.now gain) }
{
    let Some(txn) = parts.txns.get(owner) else {
        unreachable!()
    };
    let Some(walk) = &txn.current else {
        unreachable!()
    };
    let Some(reading) = read_in(parts.reads.as_slice(), owner) else {
        unreachable!()
    };
    let number = walk.statement.table();
    let Some(schema) = parts.schemas.tables.get(number) else {
        unreachable!()
    };
    let row = row_under(parts.tables.as_slice(), number, on_key);
    let gain = gain_of(alloc, &walk.statement, schema, row, reading.sum)?;
    Ok(gain)
}

/// The row of a table at the key of a lock.
fn row_under<'a>(
    tables: &'a [Table],
    number: u32,
    on_key: &Option<(Key, LockMode)>,
) -> Option<&'a Row>
    ensures { option_copied result ≡ row_under on_key.now (slice_get tables.now number) }
{
    match on_key {
        None => None,
        Some((key, _)) => match tables.get(number as usize) {
            None => None,
            Some(table) => table.get(key),
        },
    }
}

/// Whom an owner's statement in progress waits for, if it has one.
pub fn waits_in(alloc: Global, owner: Owner, parts: &Parts) -> R<Option<Owner>>
    requires { PartsKept parts.now }
    ensures { IfOk result (λ by. option_map (λ other. other.0) by ≡ next_wait (node_view parts.now) owner.0) }
{
    match parts.txns.get(owner) {
        None => Ok(None),
        Some(txn) => match &txn.current {
            None => Ok(None),
            Some(walk) => {
                let by = wait_of(alloc, owner, walk, parts)?;
                Ok(by)
            }
        },
    }
}

fn wait_of(alloc: Global, owner: Owner, walk: &Walk, parts: &Parts) -> R<Option<Owner>>
    ensures { IfOk result (λ by. option_map (λ other. other.0) by ≡ plan_excluder owner (table_of walk.now.statement) (plan_in owner.0 walk.now parts.now.schemas.tables parts.now.tables.items parts.now.locks.held) parts.now.locks.held) }
{
    let number = walk.statement.table();
    let tables = parts.tables.as_slice();
    let plan = plan_now(alloc, owner, walk, &parts.schemas, tables, &parts.locks)?;
    let by = excluder_now(alloc, owner, number, &plan, &parts.locks)?;
    Ok(by)
}

/// What is due of an owner's statement in progress.
fn due_now(alloc: Global, owner: Owner, parts: &Parts) -> R<Due>
    requires kept { PartsKept parts.now }
    requires under_way { IsUnderWay owner.0 (node_view parts.now) }
    ensures { IfOk result (λ due. IsDue owner.0 (node_view parts.now) due) }
{
    let Some(txn) = parts.txns.get(owner) else {
        unreachable!()
    };
    let Some(walk) = &txn.current else {
        unreachable!()
    };
    let number = walk.statement.table();
    let tables = parts.tables.as_slice();
    let plan = plan_now(alloc, owner, walk, &parts.schemas, tables, &parts.locks)?;
    let refused = is_refused(txn.part, &walk.statement, &plan);
    let by = excluder_now(alloc, owner, number, &plan, &parts.locks)?;
    let duplicate = duplicate_key(alloc, refused, &plan.on_key)?;
    let change = change_now(alloc, walk, &plan, &parts.schemas, tables)?;
    Ok(Due {
        number,
        plan,
        by,
        refused,
        duplicate,
        change,
    })
}

fn plan_now(
    alloc: Global,
    owner: Owner,
    walk: &Walk,
    schemas: &Schemas,
    tables: &[Table],
    locks: &LockTable,
) -> R<Plan>
    ensures { IfOk result (λ plan. plan ≡ plan_in owner.0 walk.now schemas.now.tables tables.now locks.now.held) }
{
    let number = walk.statement.table();
    match schemas.tables.get(number) {
        None => no_plan(alloc, &walk.cursor),
        Some(schema) => match tables.get(number as usize) {
            None => no_plan(alloc, &walk.cursor),
            Some(table) => {
                next_plan(
                    alloc,
                    &walk.statement,
                    schema,
                    &walk.cursor,
                    table,
                    locks,
                    owner,
                )
            }
        },
    }
}

fn no_plan(alloc: Global, cursor: &Edge) -> R<Plan>
    ensures { IfOk result (λ plan. plan ≡ empty_plan cursor.now) }
{
    Ok(Plan {
        gap: None,
        on_key: None,
        insert: false,
        after: cursor.copy(alloc)?,
        ends: true,
    })
}

/// A client's INSERT that meets a live key is refused.
fn is_refused(part: Part, statement: &Statement, plan: &Plan) -> bool
    ensures { result ≡ is_duplicate part statement.now plan.now }
{
    is_client(part) && is_insert(statement) && !plan.insert
}

fn is_client(part: Part) -> bool
    ensures { result ≡ is_client part }
{
    match part {
        Part::Client => true,
        Part::Apply { .. } => false,
    }
}

fn is_insert(statement: &Statement) -> bool
    ensures { result ≡ is_insert statement.now }
{
    matches!(statement, Statement::Insert { .. })
}

/// The key of a refused statement.
fn duplicate_key(alloc: Global, refused: bool, on_key: &Option<(Key, LockMode)>) -> R<Option<Key>>
    ensures { IfOk result (λ key. key ≡ duplicate_key refused on_key.now) }
{
    if !refused {
        return Ok(None);
    }
    match on_key {
        None => Ok(None),
        Some((key, _)) => Ok(Some(key.copy(alloc)?)),
    }
}

/// The least owner that excludes what a plan wants.
fn excluder_now(
    alloc: Global,
    owner: Owner,
    number: u32,
    plan: &Plan,
    locks: &LockTable,
) -> R<Option<Owner>>
    ensures { IfOk result (λ by. option_map (λ o. o.0) by ≡ plan_excluder owner number plan.now locks.now.held) }
{
    match wanted(alloc, plan)? {
        None => Ok(None),
        Some(want) => Ok(locks.excluder(owner, number, &want)),
    }
}

fn wanted(alloc: Global, plan: &Plan) -> R<Option<Want>>
    ensures { IfOk result (λ want. want ≡ asked plan.now.insert plan.now.on_key) }
{
    match &plan.on_key {
        None => Ok(None),
        Some((key, mode)) => {
            let key = key.copy(alloc)?;
            if plan.insert {
                return Ok(Some(Want::InsertAt { key }));
            }
            Ok(Some(Want::OnKey { key, mode: *mode }))
        }
    }
}

/// The change that a visit makes: at the key of an exclusive lock the statement does its effect.
fn change_now(
    alloc: Global,
    walk: &Walk,
    plan: &Plan,
    schemas: &Schemas,
    tables: &[Table],
) -> R<Option<Change>>
    ensures { IfOk result (λ change. change ≡ change_in walk.now plan.now.on_key schemas.now.tables tables.now) }
{
    match &plan.on_key {
        None => Ok(None),
        Some((key, mode)) => match mode {
            LockMode::Shared => Ok(None),
            LockMode::Exclusive => change_to(alloc, walk, key, schemas, tables),
        },
    }
}

fn change_to(
    alloc: Global,
    walk: &Walk,
    key: &Key,
    schemas: &Schemas,
    tables: &[Table],
) -> R<Option<Change>>
    ensures { IfOk result (λ change. change ≡ change_in walk.now (Some (key.now, Exclusive)) schemas.now.tables tables.now) }
{
    let number = walk.statement.table();
    match schemas.tables.get(number) {
        None => Ok(None),
        Some(schema) => match tables.get(number as usize) {
            None => Ok(None),
            Some(table) => {
                let new = act(alloc, &walk.statement, schema, key, table.get(key))?;
                Ok(Some(Change {
                    table: number,
                    key: key.copy(alloc)?,
                    new,
                }))
            }
        },
    }
}

/// Makes room for what is due, so that nothing after it can fail but for the statement's own place.
fn make_room(parts: &mut Parts, change: &Option<Change>) -> R<()>
    requires kept { PartsKept parts.old }
    requires there { HasTable parts.old.schemas.tables change.now }
    ensures locks { OnOk result (2 ≤ parts.new.locks.spare) }
    ensures room { OnOk result (HasRoomFor parts.new.tables.items parts.new.notes change.now) }
    ensures kept { PartsKept parts.new }
    ensures view { node_view parts.new ≡ node_view parts.old }
    ensures reads { parts.new.reads ≡ parts.old.reads }
{
    parts.locks.reserve()?;
    match change {
        None => Ok(()),
        Some(change) => room_at(&mut parts.tables, &mut parts.notes, change.table),
    }
}

/// Room for a note of a table, and for one row more than may have to be put back.
fn room_at(tables: &mut Vec<Table>, notes: &mut Notes, number: u32) -> R<()>
    requires { IsWithin number tables.old.items }
    ensures tables { IsRoomier number tables.old.items tables.new.items }
    ensures notes { notes.new.notes ≡ notes.old.notes }
    ensures ok { OnOk result (HasRoomAt number tables.new.items notes.new) }
{
    let count = notes.len() as u64;
    tables[number as usize].reserve(count + 2)?;
    notes.reserve()?;
    Ok(())
}

/// Does what is due, all or nothing.
fn settle(alloc: Global, parts: &mut Parts, owner: Owner, due: Due, gain: Gain) -> R<Visit>
    requires kept { PartsKept parts.old }
    requires reads { ReadsKept parts.old }
    requires due { IsDue owner.0 (node_view parts.old) due }
    requires free { due.by ≡ None }
    requires locks { 2 ≤ parts.old.locks.spare }
    requires room { HasRoomFor parts.old.tables.items parts.old.notes due.change }
    requires read_room { HasRoomOf owner.0 parts.old.reads.items }
    requires gain { HasGain owner.0 (node_view parts.old) parts.old.reads.items due.plan.on_key gain }
    ensures answer { IfOk result (λ answer. answer ≡ visit_answer owner.0 (node_view parts.old)) }
    ensures ok { OnOk result (node_view parts.new ≡ after_call (VisitCall owner) (node_view parts.old)) }
    ensures err { OnErr result (node_view parts.new ≡ node_view parts.old) }
    ensures kept { PartsKept parts.new }
    ensures reads { ReadsKept parts.new }
{
    let Due {
        number,
        plan,
        refused,
        duplicate,
        change,
        ..
    } = due;
    let Plan {
        gap,
        on_key,
        after,
        ends,
        ..
    } = plan;
    parts.txns.step(owner, refused, ends, after)?;
    take_due(&mut parts.locks, owner, number, gap, on_key);
    write_due(&mut parts.tables, &mut parts.notes, owner, change);
    grow_of(alloc, &mut parts.reads, owner, gain, ends);
    Ok(answer_of(duplicate, ends))
}

fn answer_of(duplicate: Option<Key>, ends: bool) -> Visit
    ensures { result ≡ answer_of duplicate ends }
{
    match duplicate {
        Some(key) => Visit::Duplicate { key },
        None => {
            if ends {
                return Visit::Done;
            }
            Visit::Stepped
        }
    }
}

/// Takes a gap lock and a record lock, where a visit takes them, without memory.
fn take_due(
    locks: &mut LockTable,
    owner: Owner,
    number: u32,
    gap: Option<Span>,
    on_key: Option<(Key, LockMode)>,
)
    requires spare { 2 ≤ locks.old.spare }
    requires free { IsFree owner.0 number locks.old.held on_key }
    ensures { locks.new.held ≡ with_lock owner number on_key (with_gap owner number gap locks.old.held) }
{
    match gap {
        None => match on_key {
            None => {}
            Some((key, mode)) => take_spare(locks, owner, number, Want::OnKey { key, mode }, None),
        },
        Some(span) => {
            take_spare(
                locks,
                owner,
                number,
                Want::OnGap { span },
                lock_wanted(on_key),
            )
        }
    }
}

fn lock_wanted(on_key: Option<(Key, LockMode)>) -> Option<Want>
    ensures { result ≡ lock_wanted on_key }
{
    match on_key {
        None => None,
        Some((key, mode)) => Some(Want::OnKey { key, mode }),
    }
}

/// Takes one want or two in the reserved capacity of spare ones.
fn take_spare(locks: &mut LockTable, owner: Owner, number: u32, first: Want, second: Option<Want>)
    requires spare { 2 ≤ locks.old.spare }
    requires first_lock { IsLock first }
    requires first_free { excluder owner.0 number first locks.old.held ≡ None }
    requires second_lock { IfSome second IsLock }
    requires second_free { IfSome second (λ want. excluder owner.0 number want locks.old.held ≡ None) }
    ensures { locks.new.held ≡ with_wants owner number first second locks.old.held }
{
    match locks.take(owner, number, first, second) {
        Ok(()) => {}
        Err(_) => unreachable!(),
    }
}

/// Makes a change that is due and notes what was there.
fn write_due(tables: &mut Vec<Table>, notes: &mut Notes, owner: Owner, change: Option<Change>)
    requires { CanWrite tables.old.items notes.old change }
    ensures { IsWritten owner change tables.old.items tables.new.items notes.old.notes notes.new.notes }
{
    match change {
        None => {}
        Some(change) => write_one(tables, notes, owner, change),
    }
}

fn write_one(tables: &mut Vec<Table>, notes: &mut Notes, owner: Owner, change: Change)
    requires { CanWriteAt tables.old.items notes.old change }
    ensures { IsWrittenAt owner change tables.old.items tables.new.items notes.old.notes notes.new.notes }
{
    let number = change.table;
    change_noted(&mut tables[number as usize], notes, owner, change);
}
