ghost use Rattle.std.specs.Prelude.{◌≡◌, ◌≤◌, ◌<◌, ◌-◌, ◌+◌, ◌^◌, ◌↔◌, [], ◌∷◌, ◌++◌, length, option_copied, vec_len, vec_capacity, IsTrue, IfOk, IfErr, OnOk, OnErr};
ghost use Rattle.statement_log.specs.Positions.{entry_at};
ghost use Rattle.statement_log.specs.LogView.{LogView};

use crate::entries::{Entries, Entry};
use row_types::{Items, Memory, R};
use std::alloc::Global;
use std::marker::Model;

/// Entries, numbered from 1. A number of further ones, spare, can be appended without memory.
#[derive(Debug, Drop)]
pub struct Log {
    entries: Vec<Entry>,
    spare: u64,
}

impl Model for Log {
    ghost use Rattle.statement_log.specs.LogView.{LogView};
    ghost use Rattle.statement_log.specs.LogParts.{log_view, HasRoom};
    ghost use Rattle.std.specs.Coded.{codes};
    ghost use Rattle.ptc_statement.specs.contracts.expressions.Expr as expr;
    ghost use Rattle.ptc_statement.specs.contracts.conditions.Cond as condition;

    ghost Value = { LogView };

    ghost coded = { Prim.hlevel (codes, expr.the_row.coded, condition.the_row.coded) };

    ghost view = { log_view };

    ghost invariant = { HasRoom };
}

impl Log {
    /// A log without entries, to which none can be appended without memory.
    pub fn new(alloc: Global) -> Log
        ensures { result ≡ record { entries = []; spare = 0 } }
    {
        Log {
            entries: Vec::new(alloc),
            spare: 0,
        }
    }

    /// How many entries there are: the position of the last.
    pub fn len(&self) -> u64
        ensures value { result ≡ length self.now.entries }
        ensures bound { result < 2 ^ 63 }
    {
        self.entries.len() as u64
    }

    pub fn is_empty(&self) -> bool
        ensures { IsTrue result ↔ (self.now.entries ≡ []) }
    {
        self.entries.is_empty()
    }

    /// All entries, in order.
    pub fn as_slice(&self) -> &[Entry]
        ensures { result.now ≡ self.now.entries }
    {
        self.entries.as_slice()
    }

    /// All entries, in order, without a copy.
    pub fn into_entries(self) -> Entries
        ensures { result ≡ self.entries }
    {
        Items {
            items: self.entries,
        }
    }

    /// The entry at a position; none at 0 and past the last.
    pub fn get(&self, position: u64) -> Option<&Entry>
        ensures { option_copied result ≡ entry_at position self.now.entries }
    {
        if position == 0 {
            return None;
        }
        self.entries.get(position as usize - 1)
    }

    /// How many entries can be appended without memory.
    pub fn spare(&self) -> u64
        ensures { result ≡ self.now.spare }
    {
        self.spare
    }

    /// Puts an entry at the end and answers its position, the new length. It takes the reserved capacity
    /// of a spare entry, and memory only where none is spare; a refusal hands the entry back.
    pub fn append(&mut self, entry: Entry) -> Result<u64, (Entry, Memory)>
        ensures ok { OnOk result (self.new.entries ≡ self.old.entries ++ entry ∷ []) }
        ensures position { IfOk result (λ position. position ≡ length self.new.entries) }
        ensures spare { OnOk result (self.new.spare ≡ self.old.spare - 1) }
        ensures refused { OnErr result (self.old.spare ≡ 0) }
        ensures err { OnErr result (self.new ≡ self.old) }
        ensures handed_back { IfErr result (λ refused. refused.0 ≡ entry) }
    {
        if self.spare == 0 {
            let Ok(()) = self.entries.reserve(1) else {
                return Err((entry, Memory));
            };
        } else {
            self.spare -= 1;
        }
        put_last(&mut self.entries, entry);
        Ok(self.entries.len() as u64)
    }

    /// Makes at least one entry spare; the log's own stay. A refusal changes nothing, and comes only
    /// where none was spare.
    pub fn reserve(&mut self) -> R<()>
        ensures ok { OnOk result (1 ≤ self.new.spare) }
        ensures refused { OnErr result (self.old.spare ≡ 0) }
        ensures err { OnErr result (self.new ≡ self.old) }
        ensures entries { self.new.entries ≡ self.old.entries }
        ensures spare { self.old.spare ≤ self.new.spare }
    {
        if self.spare == 0 {
            self.entries.reserve(1)?;
            self.spare = 1;
        }
        Ok(())
    }
}

/// Puts an entry after the others, where there is reserved capacity for it.
fn put_last(entries: &mut Vec<Entry>, entry: Entry)
    requires { vec_len entries.old < vec_capacity entries.old }
    ensures items { entries.new.items ≡ entries.old.items ++ entry ∷ [] }
    ensures len { vec_len entries.new ≡ vec_len entries.old + 1 }
    ensures capacity { vec_capacity entries.old ≤ vec_capacity entries.new }
{
    match entries.push(entry) {
        Ok(()) => {}
        Err(_) => unreachable!(),
    }
}
