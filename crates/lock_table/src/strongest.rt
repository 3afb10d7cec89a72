//! The strongest lock of an owner on a key.
ghost use Rattle.std.specs.Prelude.{◌≡◌};
ghost use Rattle.lock_table.specs.Locks.{held_on, stronger, with_lock_of};

use crate::exclusion::is_same_key;
use crate::wants::{Held, Holding, Owner, Want};
use row_types::{Key, LockMode};

fn stronger(mode: LockMode, held: Held) -> Held
    ensures { result ≡ stronger mode held }
{
    match (mode, held) {
        (LockMode::Exclusive, _) => Held::Exclusive,
        (LockMode::Shared, Held::Exclusive) => Held::Exclusive,
        (LockMode::Shared, _) => Held::Shared,
    }
}

/// The strongest of a lock and that of a further want on the same key.
fn with_lock_of(key: &Key, want: &Want, held: Held) -> Held
    ensures { result ≡ with_lock_of key.now want.now held }
{
    match want {
        Want::OnKey { key: other, mode } => {
            if is_same_key(key, other) {
                return stronger(*mode, held);
            }
            held
        }
        Want::OnGap { .. } | Want::InsertAt { .. } => held,
    }
}

/// The strongest lock of an owner on a key.
pub(crate) fn held_in(held: &[Holding], owner: Owner, table: u32, key: &Key) -> Held
    ensures { result ≡ held_on owner.0 table key.now held.now }
{
    let mut index = held.len();
    let mut strongest = Held::Free;
    while index > 0 {
        index -= 1;
        let holding = &held[index];
        if holding.owner.0 == owner.0 && holding.table == table {
            strongest = with_lock_of(key, &holding.want, strongest);
        }
    }
    strongest
}
