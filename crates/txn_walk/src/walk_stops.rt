//! The keys at which an owner's walk stops, and the gaps between them.
ghost use Rattle.std.specs.Prelude.{◌≡◌, option_copied, IfOk};
ghost use Rattle.lock_table.specs.Stops.{least_key_past, greatest_key_before, after_key, before_key, gap_round};
ghost use Rattle.lock_table.specs.FoundKeys.{lesser_of, greater_of};

use lock_table::{LockTable, Owner};
use ordered_table::Table;
use row_types::{Edge, Key, R, Span, Value, compare_values};
use std::alloc::Global;
use std::marker::Model;

/// The stops of an owner on the table of a number: the keys of its rows, and those on which another
/// owner has a lock. They are seen as a list of keys, in no order; none of them is copied.
#[derive(Debug, Drop)]
pub(crate) struct Stops<'a> {
    pub(crate) owner: Owner,
    pub(crate) number: u32,
    pub(crate) table: &'a Table,
    pub(crate) locks: &'a LockTable,
}

impl<'a> Model for Stops<'a> {
    ghost use Rattle.std.specs.Prelude.{List};
    ghost use Rattle.row_types.specs.declared.values.Value.{Value as ColumnValue};
    ghost use Rattle.txn_walk.specs.StopsAt.{stops_at};

    ghost Value = { List (List ColumnValue) };

    ghost view = { λ stops. stops_at stops.owner.0 stops.number stops.table.now stops.locks.now.held };
}

impl<'a> Stops<'a> {
    /// The next stop past an edge.
    pub(crate) fn next(&self, alloc: Global, edge: &Edge) -> R<Option<Key>>
        ensures { IfOk result (λ stop. stop ≡ least_key_past edge.now self.now) }
    {
        let locked = self.locks.foreign_next(self.owner, self.number, edge);
        let stop = lesser_stop(alloc, locked, self.table.next(edge))?;
        Ok(stop)
    }

    /// The last stop before an edge.
    fn prev(&self, alloc: Global, edge: &Edge) -> R<Option<Key>>
        ensures { IfOk result (λ stop. stop ≡ greatest_key_before edge.now self.now) }
    {
        let locked = self.locks.foreign_prev(self.owner, self.number, edge);
        let stop = greater_stop(alloc, locked, self.table.prev(edge))?;
        Ok(stop)
    }

    /// The gap round an edge, from the last stop before it to the next past it.
    pub(crate) fn gap_at(&self, alloc: Global, edge: &Edge) -> R<Span>
        ensures { IfOk result (λ span. span ≡ gap_round edge.now self.now) }
    {
        let lo = after_key(self.prev(alloc, edge)?);
        let hi = before_key(self.next(alloc, edge)?);
        Ok(Span { lo, hi })
    }
}

fn after_key(key: Option<Key>) -> Edge
    ensures { result ≡ after_key key }
{
    match key {
        None => Edge::Low,
        Some(key) => Edge::After(key),
    }
}

fn before_key(key: Option<Key>) -> Edge
    ensures { result ≡ before_key key }
{
    match key {
        None => Edge::High,
        Some(key) => Edge::Before(key),
    }
}

fn lesser_stop(alloc: Global, locked: Option<&Key>, live: Option<&[Value]>) -> R<Option<Key>>
    ensures { IfOk result (λ stop. stop ≡ lesser_of (option_copied locked.entry) (option_copied live.entry)) }
{
    match locked {
        None => key_of(alloc, live),
        Some(key) => match live {
            None => Ok(Some(key.copy(alloc)?)),
            Some(values) => {
                if compare_values(values, key.as_slice()).is_lt() {
                    Ok(Some(Key::from_values(alloc, values)?))
                } else {
                    Ok(Some(key.copy(alloc)?))
                }
            }
        },
    }
}

fn greater_stop(alloc: Global, locked: Option<&Key>, live: Option<&[Value]>) -> R<Option<Key>>
    ensures { IfOk result (λ stop. stop ≡ greater_of (option_copied locked.entry) (option_copied live.entry)) }
{
    match locked {
        None => key_of(alloc, live),
        Some(key) => match live {
            None => Ok(Some(key.copy(alloc)?)),
            Some(values) => {
                if compare_values(key.as_slice(), values).is_lt() {
                    Ok(Some(Key::from_values(alloc, values)?))
                } else {
                    Ok(Some(key.copy(alloc)?))
                }
            }
        },
    }
}

fn key_of(alloc: Global, values: Option<&[Value]>) -> R<Option<Key>>
    ensures { IfOk result (λ key. key ≡ option_copied values.entry) }
{
    match values {
        None => Ok(None),
        Some(values) => Ok(Some(Key::from_values(alloc, values)?)),
    }
}
