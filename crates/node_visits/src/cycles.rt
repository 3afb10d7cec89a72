ghost use Rattle.std.specs.Prelude.{◌≡◌, option_map, IfOk};
ghost use Rattle.node_model.specs.Waits.{cycle_of, victim_of, is_clients};
ghost use Rattle.node_model.specs.Txns.{txn_of};
ghost use Rattle.node_parts.specs.Kept.{node_view, PartsKept};
ghost use Rattle.node_visits.specs.Cycles.{numbers_of};

use crate::visits::waits_in;
use lock_table::{Owner, Owners};
use node_model::{Part, Txns};
use node_parts::Parts;
use row_types::R;
use std::alloc::Global;

/// The cycle of an owner's waits, from the owner on, where following waits comes back to it: from each owner
/// to the least one that excludes what it wants next, until they come back, end, or have passed all owners.
pub fn cycle_in(alloc: Global, owner: Owner, parts: &Parts) -> R<Option<Owners>>
    requires { PartsKept parts.now }
    ensures { IfOk result (λ cycle. option_map numbers_of cycle ≡ cycle_of (node_view parts.now) owner.0) }
{
    let mut way = Owners::new(alloc);
    let mut at = owner;
    let mut left = parts.txns.len();
    while left > 0 {
        left -= 1;
        way.push(at)?;
        match waits_in(alloc, at, parts)? {
            None => return Ok(None),
            Some(next) => {
                if next.0 == owner.0 {
                    return Ok(Some(way));
                }
                at = next;
            }
        }
    }
    Ok(None)
}

/// Whose transaction a deadlock ends: the first on the cycle that is a client's, else the owner's.
pub fn victim_in(txns: &Txns, owner: Owner, cycle: &[Owner]) -> Owner
    ensures { result.0 ≡ victim_of txns.now owner.0 (numbers_of cycle.now) }
{
    let mut rest = cycle;
    while let Some((first, more)) = rest.split_first() {
        if is_clients(txns, *first) {
            return *first;
        }
        rest = more;
    }
    owner
}

fn is_clients(txns: &Txns, owner: Owner) -> bool
    ensures { result ≡ is_clients (txn_of owner.0 txns.now) }
{
    match txns.get(owner) {
        None => false,
        Some(txn) => match txn.part {
            Part::Client => true,
            Part::Apply { .. } => false,
        },
    }
}
