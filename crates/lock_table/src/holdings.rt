//! Holdings by ascending owner: the other owners', a holding more, and an owner's taken out.
ghost use Rattle.std.specs.Prelude.{◌≡◌, ◌≤◌, ◌<◌, ◌+◌, vec_len, vec_capacity};
ghost use Rattle.std.specs.List.{insert};
ghost use Rattle.lock_table.specs.Locks.{with_holding, released, IsByOwner, AreLocks, IsLock};
ghost use Rattle.lock_table.specs.Places.{IsStartOf, IsEndOf, AreOthers};

use crate::wants::{Holding, Owner};

/// The index of the owner's first holding, or of the first of a greater one.
fn start_of(held: &[Holding], owner: Owner) -> usize
    requires { IsByOwner held.now }
    ensures { IsStartOf owner.0 held.now result }
{
    held.partition_point(|holding| holding.owner.0 < owner.0)
}

/// The index of the first holding of a greater owner.
fn end_of(held: &[Holding], owner: Owner) -> usize
    requires { IsByOwner held.now }
    ensures { IsEndOf owner.0 held.now result }
{
    held.partition_point(|holding| holding.owner.0 <= owner.0)
}

/// The holdings of lesser owners, and those of greater ones.
#[tactic(auto, using(crate::proofs::OtherLemmas::front_by_owner, crate::proofs::OtherLemmas::others_are))]
pub(crate) fn others_of<'a>(held: &'a [Holding], owner: Owner) -> (&'a [Holding], &'a [Holding])
    requires { IsByOwner held.now }
    ensures { AreOthers owner.0 held.now result.0.now result.1.now }
{
    let (up_to, greater) = held.split_at(end_of(held, owner));
    let (lesser, _) = up_to.split_at(start_of(up_to, owner));
    (lesser, greater)
}

/// Puts a holding behind its owner's others, where there is reserved capacity for it.
pub(crate) fn put_behind(held: &mut Vec<Holding>, holding: Holding)
    requires by_owner { IsByOwner held.old.items }
    requires room { vec_len held.old < vec_capacity held.old }
    ensures items { held.new.items ≡ with_holding holding held.old.items }
    ensures len { vec_len held.new ≡ vec_len held.old + 1 }
    ensures capacity { vec_capacity held.old ≤ vec_capacity held.new }
{
    let end = end_of(held.as_slice(), holding.owner);
    put_in(held, end, holding);
}

/// Puts a holding in before another, where there is reserved capacity for it.
fn put_in(held: &mut Vec<Holding>, index: usize, holding: Holding)
    requires within { index ≤ vec_len held.old }
    requires room { vec_len held.old < vec_capacity held.old }
    ensures items { held.new.items ≡ insert held.old.items index holding }
    ensures len { vec_len held.new ≡ vec_len held.old + 1 }
    ensures capacity { vec_capacity held.old ≤ vec_capacity held.new }
{
    match held.insert(index, holding) {
        Ok(()) => {}
        Err(_) => unreachable!(),
    }
}

/// Takes an owner's holdings out.
pub(crate) fn take_out(held: &mut Vec<Holding>, owner: Owner)
    ensures items { held.new.items ≡ released owner.0 held.old.items }
    ensures len { vec_len held.new ≤ vec_len held.old }
    ensures capacity { vec_capacity held.old ≤ vec_capacity held.new }
{
    held.retain(|holding| holding.owner.0 != owner.0);
}
