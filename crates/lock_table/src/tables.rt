ghost use Rattle.std.specs.Prelude.{◌≡◌, ◌≤◌, ◌<◌, ◌+◌, [], None, option_copied, option_map, IfSome, OnOk, OnErr};
ghost use Rattle.lock_table.specs.Stops.{least_key_past, greatest_key_before};
ghost use Rattle.lock_table.specs.Locks.{excluder, foreign_keys, held_on, released, with_want, with_wants, IsLock};

use crate::exclusion::least_excluder;
use crate::foreign_keys::{foreign_next, foreign_prev};
use crate::holdings::{put_behind, take_out};
use crate::strongest::held_in;
use crate::wants::{Held, Holding, Owner, Want};
use row_types::{Edge, Key, R};
use std::alloc::Global;
use std::marker::Model;

/// What owners hold: locks on keys and gaps of tables, by ascending owner, and each owner's in the order
/// in which it took them. A number of further wants, spare, can be taken without memory.
#[derive(Debug, Drop)]
pub struct LockTable {
    held: Vec<Holding>,
    spare: u64,
}

impl Model for LockTable {
    ghost use Rattle.lock_table.specs.LockView.{LockView};
    ghost use Rattle.lock_table.specs.LockParts.{lock_view, IsKept};

    ghost Value = { LockView };

    ghost view = { lock_view };

    ghost invariant = { IsKept };
}

impl LockTable {
    /// Nobody holds anything.
    pub fn new(alloc: Global) -> LockTable
        ensures { result ≡ record { held = []; spare = 0 } }
    {
        LockTable {
            held: Vec::new(alloc),
            spare: 0,
        }
    }

    /// The least other owner whose holding excludes the want, if there is one. Between different owners
    /// on one table a lock on a key excludes one on the same key unless both are shared; any lock on a
    /// key, and any gap lock over it, excludes putting a row in there; nothing excludes a gap lock.
    /// Source: MySQL Reference Manual, "InnoDB Locking".
    pub fn excluder(&self, owner: Owner, table: u32, want: &Want) -> Option<Owner>
        ensures { option_map (λ by. by.0) result ≡ excluder owner.0 table want.now self.now.held }
    {
        least_excluder(self.held.as_slice(), owner, table, want)
    }

    /// The owner takes one want or two, each a lock that nobody excludes: all of them or, without
    /// memory, none. It takes the reserved capacity of spare ones, and memory only where fewer than two
    /// are spare. What an owner holds it keeps until it is released, and may hold a lock twice.
    pub fn take(&mut self, owner: Owner, table: u32, first: Want, second: Option<Want>) -> R<()>
        requires first_lock { IsLock first }
        requires first_free { excluder owner.0 table first self.old.held ≡ None }
        requires second_lock { IfSome second IsLock }
        requires second_free { IfSome second (λ want. excluder owner.0 table want self.old.held ≡ None) }
        ensures ok { OnOk result (self.new.held ≡ with_wants owner table first second self.old.held) }
        ensures spare { OnOk result (self.old.spare ≤ self.new.spare + 2) }
        ensures refused { OnErr result (self.old.spare < 2) }
        ensures err { OnErr result (self.new ≡ self.old) }
    {
        self.reserve()?;
        self.take_spare(owner, table, first);
        match second {
            None => {}
            Some(want) => self.take_spare(owner, table, want),
        }
        Ok(())
    }

    /// Makes at least two wants spare; what is held stays. A refusal changes nothing, and comes only
    /// where fewer than two were spare.
    pub fn reserve(&mut self) -> R<()>
        ensures ok { OnOk result (2 ≤ self.new.spare) }
        ensures refused { OnErr result (self.old.spare < 2) }
        ensures err { OnErr result (self.new ≡ self.old) }
        ensures held { self.new.held ≡ self.old.held }
        ensures spare { self.old.spare ≤ self.new.spare }
    {
        if self.spare < 2 {
            self.held.reserve(2)?;
            self.spare = 2;
        }
        Ok(())
    }

    /// Takes a want in the reserved capacity of a spare one.
    fn take_spare(&mut self, owner: Owner, table: u32, want: Want)
        requires room { 1 ≤ self.old.spare }
        requires lock { IsLock want }
        ensures held { self.new.held ≡ with_want owner table want self.old.held }
        ensures spare { self.old.spare ≡ self.new.spare + 1 }
    {
        self.spare -= 1;
        put_behind(&mut self.held, Holding { owner, table, want });
    }

    /// All that the owner holds goes, and nothing else.
    pub fn release(&mut self, owner: Owner)
        ensures held { self.new.held ≡ released owner.0 self.old.held }
        ensures spare { self.new.spare ≡ self.old.spare }
    {
        take_out(&mut self.held, owner);
    }

    /// The least key past an edge on which another owner has a lock, if there is one.
    pub fn foreign_next(&self, owner: Owner, table: u32, edge: &Edge) -> Option<&Key>
        ensures { option_copied result ≡ least_key_past edge.now (foreign_keys owner.0 table self.now.held) }
    {
        foreign_next(self.held.as_slice(), owner, table, edge)
    }

    /// The greatest key before an edge on which another owner has a lock, if there is one.
    pub fn foreign_prev(&self, owner: Owner, table: u32, edge: &Edge) -> Option<&Key>
        ensures { option_copied result ≡ greatest_key_before edge.now (foreign_keys owner.0 table self.now.held) }
    {
        foreign_prev(self.held.as_slice(), owner, table, edge)
    }

    /// The strongest lock that an owner has on a key.
    pub fn holds(&self, owner: Owner, table: u32, key: &Key) -> Held
        ensures { result ≡ held_on owner.0 table key.now self.now.held }
    {
        held_in(self.held.as_slice(), owner, table, key)
    }
}
