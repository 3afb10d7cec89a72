ghost use Rattle.std.specs.Prelude.{◌≡◌, ◌<◌, ◌≤◌, ◌+◌, ◌^◌};
ghost use Rattle.applier.specs.Appliers.{is_number, is_taken, first_left, entry_left, earlier_open};

use crate::workers::Worker;

fn is_number(number: u64, entry: Option<u64>) -> bool
    ensures { result ≡ is_number number entry }
{
    match entry {
        None => false,
        Some(entry) => entry == number,
    }
}

/// Whether a worker has the entry of this number.
fn is_taken(number: u64, workers: &[Worker]) -> bool
    ensures { result ≡ is_taken number workers.now }
{
    let mut rest = workers;
    while let Some((first, more)) = rest.split_first() {
        if is_number(number, first.entry) {
            return true;
        }
        rest = more;
    }
    false
}

/// The first entry that no worker has, of so many from this number on.
fn first_left(count: u64, number: u64, workers: &[Worker]) -> Option<u64>
    requires { number + count < 2 ^ 64 }
    ensures { result ≡ first_left count number workers.now }
{
    let mut left = count;
    let mut next = number;
    while left > 0 {
        if !is_taken(next, workers) {
            return Some(next);
        }
        next += 1;
        left -= 1;
    }
    None
}

/// The first entry behind those that were applied that no worker has, if there is one up to the log's end.
pub fn entry_left(applied: u64, end: u64, workers: &[Worker]) -> Option<u64>
    requires { end < 2 ^ 63 }
    ensures { result ≡ entry_left applied end workers.now }
{
    if end <= applied {
        return None;
    }
    first_left(end - applied, applied + 1, workers)
}

/// The entry behind those that were applied, where it is an earlier one than this.
pub fn earlier_open(applied: u64, number: u64) -> Option<u64>
    ensures { result ≡ earlier_open applied number }
{
    if applied < number && number - applied > 1 {
        return Some(applied + 1);
    }
    None
}
