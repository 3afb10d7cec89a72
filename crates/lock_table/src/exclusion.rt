//! Which holdings exclude a want, and the least owner of one.
ghost use Rattle.std.specs.Prelude.{◌≡◌, option_map};
ghost use Rattle.lock_table.specs.Locks.{is_same_key, is_exclusive, is_excluded_by, is_foreign, excludes, excluder, IsByOwner};

use crate::holdings::others_of;
use crate::wants::{Holding, Owner, Want};
use row_types::{Key, LockMode};

/// Whether a holding of another owner excludes the want.
fn excludes(owner: Owner, table: u32, want: &Want, holding: &Holding) -> bool
    ensures { result ≡ excludes owner.0 table want.now holding.now }
{
    is_foreign(owner, table, holding) && is_excluded_by(want, &holding.want)
}

pub(crate) fn is_foreign(owner: Owner, table: u32, holding: &Holding) -> bool
    ensures { result ≡ is_foreign owner.0 table holding.now }
{
    holding.owner.0 != owner.0 && holding.table == table
}

fn is_exclusive(mode: LockMode) -> bool
    ensures { result ≡ is_exclusive mode }
{
    match mode {
        LockMode::Shared => false,
        LockMode::Exclusive => true,
    }
}

pub(crate) fn is_same_key(ours: &Key, theirs: &Key) -> bool
    ensures { result ≡ is_same_key ours.now theirs.now }
{
    ours.compare(theirs).is_eq()
}

fn is_excluded_by(want: &Want, held: &Want) -> bool
    ensures { result ≡ is_excluded_by want.now held.now }
{
    match want {
        Want::OnKey { key, mode } => match held {
            Want::OnKey {
                key: other,
                mode: held_mode,
            } => is_same_key(key, other) && (is_exclusive(*mode) || is_exclusive(*held_mode)),
            Want::OnGap { .. } | Want::InsertAt { .. } => false,
        },
        Want::OnGap { .. } => false,
        Want::InsertAt { key } => match held {
            Want::OnKey { key: other, .. } => is_same_key(key, other),
            Want::OnGap { span } => span.has(key),
            Want::InsertAt { .. } => false,
        },
    }
}

/// The first owner of the holdings, which is the least, whose holding excludes the want.
#[tactic(auto, using(crate::proofs::OtherLemmas::first_excludes))]
fn first_excluder(held: &[Holding], owner: Owner, table: u32, want: &Want) -> Option<Owner>
    requires { IsByOwner held.now }
    ensures { option_map (λ by. by.0) result ≡ excluder owner.0 table want.now held.now }
{
    let mut rest = held;
    while let Some((holding, more)) = rest.split_first() {
        if excludes(owner, table, want, holding) {
            return Some(holding.owner);
        }
        rest = more;
    }
    None
}

/// The least owner of the holdings that exclude the want. The owner's own are passed over at once.
pub(crate) fn least_excluder(
    held: &[Holding],
    owner: Owner,
    table: u32,
    want: &Want,
) -> Option<Owner>
    requires { IsByOwner held.now }
    ensures { option_map (λ by. by.0) result ≡ excluder owner.0 table want.now held.now }
{
    let (lesser, greater) = others_of(held, owner);
    match first_excluder(lesser, owner, table, want) {
        None => first_excluder(greater, owner, table, want),
        Some(by) => Some(by),
    }
}
