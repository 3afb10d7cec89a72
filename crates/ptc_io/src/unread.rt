// Bytes that are taken from their front.
ghost use Rattle.std.specs.Prelude.{◌≡◌, ◌≤◌, ◌++◌, List, ℕ, length, min, take, drop, vec_len};

use std::marker::Model;

#[derive(Drop)]
pub(crate) struct Unread {
    bytes: Vec<u8>,
    at: usize,
}

impl Model for Unread {
    ghost Value = { List ℕ };

    ghost view = { λ s. drop s.at s.bytes.items };

    ghost invariant = { λ s. s.at ≤ vec_len s.bytes };
}

impl Unread {
    pub(crate) fn new(bytes: Vec<u8>) -> Unread
        ensures { result ≡ bytes.items }
    {
        Unread { bytes, at: 0 }
    }

    // Moves as many bytes as fit into the front of `buf`, and gives their number.
    pub(crate) fn take(&mut self, buf: &mut [u8]) -> usize
        ensures count { result ≡ min (length self.old) (length buf.old) }
        ensures moves { self.old ≡ take result buf.new ++ self.new }
    {
        let (_, rest) = self.bytes.split_at(self.at);
        let count = copy_front(rest, buf);
        self.at += count;
        count
    }
}

fn copy_front(from: &[u8], to: &mut [u8]) -> usize
    ensures count { result ≡ min (length from.now) (length to.old) }
    ensures copied { take result to.new ≡ take result from.now }
{
    let count = from.len().min(to.len());
    let (front, _) = from.split_at(count);
    let (room, _) = to.split_at_mut(count);
    room.copy_from_slice(front);
    count
}
