//! The keys on which other owners have locks, beside an edge.
ghost use Rattle.std.specs.Prelude.{◌≡◌, option_copied};
ghost use Rattle.lock_table.specs.Stops.{lesser_key, greater_key, least_key_past, greatest_key_before};
ghost use Rattle.lock_table.specs.FoundKeys.{least_with, greatest_with, lesser_of, greater_of};
ghost use Rattle.lock_table.specs.Locks.{foreign_keys, IsByOwner};

use crate::exclusion::is_foreign;
use crate::holdings::others_of;
use crate::wants::{Holding, Owner, Want};
use row_types::{Edge, Key};

/// The lesser of a key and another, if there is one.
fn lesser_key<'a>(key: &'a Key, other: Option<&'a Key>) -> &'a Key
    ensures { result.now ≡ lesser_key key.now (option_copied other.entry) }
{
    match other {
        None => key,
        Some(other) => {
            if other.compare(key).is_lt() {
                other
            } else {
                key
            }
        }
    }
}

/// The greater of a key and another, if there is one.
fn greater_key<'a>(key: &'a Key, other: Option<&'a Key>) -> &'a Key
    ensures { result.now ≡ greater_key key.now (option_copied other.entry) }
{
    match other {
        None => key,
        Some(other) => {
            if key.compare(other).is_lt() {
                other
            } else {
                key
            }
        }
    }
}

/// The least of the keys found so far and that of a further want, if this is a lock on a key past the edge.
fn least_with<'a>(edge: &Edge, want: &'a Want, found: Option<&'a Key>) -> Option<&'a Key>
    ensures { option_copied result ≡ least_with edge.now want.now (option_copied found.entry) }
{
    match want {
        Want::OnKey { key, .. } => {
            if edge.is_before(key.as_slice()) {
                return Some(lesser_key(key, found));
            }
            found
        }
        Want::OnGap { .. } | Want::InsertAt { .. } => found,
    }
}

fn greatest_with<'a>(edge: &Edge, want: &'a Want, found: Option<&'a Key>) -> Option<&'a Key>
    ensures { option_copied result ≡ greatest_with edge.now want.now (option_copied found.entry) }
{
    match want {
        Want::OnKey { key, .. } => {
            if edge.is_after(key.as_slice()) {
                return Some(greater_key(key, found));
            }
            found
        }
        Want::OnGap { .. } | Want::InsertAt { .. } => found,
    }
}

/// The lesser of two keys, where there are two.
fn lesser_of<'a>(ours: Option<&'a Key>, theirs: Option<&'a Key>) -> Option<&'a Key>
    ensures { option_copied result ≡ lesser_of (option_copied ours.entry) (option_copied theirs.entry) }
{
    match ours {
        None => theirs,
        Some(key) => Some(lesser_key(key, theirs)),
    }
}

/// The greater of two keys, where there are two.
fn greater_of<'a>(ours: Option<&'a Key>, theirs: Option<&'a Key>) -> Option<&'a Key>
    ensures { option_copied result ≡ greater_of (option_copied ours.entry) (option_copied theirs.entry) }
{
    match ours {
        None => theirs,
        Some(key) => Some(greater_key(key, theirs)),
    }
}

/// The least key past an edge on which another owner has a lock, gone over from the last holding on.
fn next_in<'a>(held: &'a [Holding], owner: Owner, table: u32, edge: &Edge) -> Option<&'a Key>
    ensures { option_copied result ≡ least_key_past edge.now (foreign_keys owner.0 table held.now) }
{
    let mut index = held.len();
    let mut least = None;
    while index > 0 {
        index -= 1;
        let holding = &held[index];
        if is_foreign(owner, table, holding) {
            least = least_with(edge, &holding.want, least);
        }
    }
    least
}

/// The greatest key before an edge on which another owner has a lock, gone over likewise.
fn prev_in<'a>(held: &'a [Holding], owner: Owner, table: u32, edge: &Edge) -> Option<&'a Key>
    ensures { option_copied result ≡ greatest_key_before edge.now (foreign_keys owner.0 table held.now) }
{
    let mut index = held.len();
    let mut greatest = None;
    while index > 0 {
        index -= 1;
        let holding = &held[index];
        if is_foreign(owner, table, holding) {
            greatest = greatest_with(edge, &holding.want, greatest);
        }
    }
    greatest
}

/// The least key past an edge on which another owner has a lock. The owner's own are passed over at once.
#[tactic(auto, using(crate::proofs::OtherLemmas::next_of_others))]
pub(crate) fn foreign_next<'a>(
    held: &'a [Holding],
    owner: Owner,
    table: u32,
    edge: &Edge,
) -> Option<&'a Key>
    requires { IsByOwner held.now }
    ensures { option_copied result ≡ least_key_past edge.now (foreign_keys owner.0 table held.now) }
{
    let (lesser, greater) = others_of(held, owner);
    lesser_of(
        next_in(lesser, owner, table, edge),
        next_in(greater, owner, table, edge),
    )
}

/// The greatest key before an edge on which another owner has a lock.
#[tactic(auto, using(crate::proofs::OtherLemmas::prev_of_others))]
pub(crate) fn foreign_prev<'a>(
    held: &'a [Holding],
    owner: Owner,
    table: u32,
    edge: &Edge,
) -> Option<&'a Key>
    requires { IsByOwner held.now }
    ensures { option_copied result ≡ greatest_key_before edge.now (foreign_keys owner.0 table held.now) }
{
    let (lesser, greater) = others_of(held, owner);
    greater_of(
        prev_in(lesser, owner, table, edge),
        prev_in(greater, owner, table, edge),
    )
}
