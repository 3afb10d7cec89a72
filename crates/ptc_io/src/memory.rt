// A source and a sink over memory, which fail at listed calls.
ghost use Rattle.std.specs.Prelude.{◌≡◌, ◌↔◌, [], ◌≤◌, Some, min, length, take, IsTrue, IsErr, IfOk, OnErr};
ghost use Rattle.ptc_io.specs.Bytes.{Appends, Loses};
ghost use Rattle.ptc_io.specs.Calls.{fails_next};
ghost use Rattle.ptc_io.specs.Faults.{HasCause, CountsFaults};
ghost use Rattle.ptc_io.specs.Memory.{MemoryInput, MemoryOutput, CountsRead, CountsWrite};

use super::call_list::CallList;
use super::fault_count::FaultCount;
use super::unread::Unread;
use super::{Failed, Sink, Source};
use std::alloc::Global;
use std::marker::Model;

/// Gives the bytes that it was made with, and fails at the listed calls. A call that fails takes
/// no byte.
#[derive(Drop)]
pub struct MemorySource {
    unread: Unread,
    calls: CallList,
    faults: FaultCount,
}

impl Model for MemorySource {
    ghost Value = { MemoryInput };

    ghost view = { λ s. record {
      bytes = s.unread;
      made = s.calls.made;
      failing = s.calls.failing.items;
      faults = s.faults.count;
    } };
}

impl MemorySource {
    /// `failing` has the numbers of the calls that are to fail, counted from 1.
    pub fn new(bytes: Vec<u8>, failing: Vec<u64>) -> MemorySource
        ensures bytes { result.bytes ≡ bytes.items }
        ensures made { result.made ≡ 0 }
        ensures failing { result.failing ≡ failing.items }
        ensures faults { result.faults ≡ 0 }
    {
        MemorySource {
            unread: Unread::new(bytes),
            calls: CallList::new(failing),
            faults: FaultCount::none(),
        }
    }
}

impl Source for MemorySource {
    ghost left = { λ s. Some s.bytes };

    ghost faults = { λ s. s.faults };

    fn read(&mut self, buf: &mut [u8]) -> Result<usize, Failed>
        ensures count { IfOk result (λ n. n ≡ min (length self.old.bytes) (length buf.old)) }
        ensures moves { IfOk result (λ n. Loses (Some self.old.bytes) (Some self.new.bytes)
            (take n buf.new)) }
        ensures kept { OnErr result (self.new.bytes ≡ self.old.bytes) }
        ensures listed { IsErr result ↔ IsTrue (fails_next self.old.made self.old.failing) }
        ensures counts { CountsRead self.old self.new }
        ensures cause { HasCause self.old.faults self.new.faults result }
        ensures faults { CountsFaults self.old.faults self.new.faults result }
    {
        if self.calls.count() {
            self.faults.rise();
            return Err(Failed);
        }
        Ok(self.unread.take(buf))
    }
}

/// Holds the bytes that were written, takes at most so many of them in a call, and fails at the
/// listed calls, and where there is no memory for a piece. A call that fails takes no byte.
#[derive(Drop)]
pub struct MemorySink {
    held: Vec<u8>,
    most: usize,
    calls: CallList,
    faults: FaultCount,
}

impl Model for MemorySink {
    ghost Value = { MemoryOutput };

    ghost view = { λ s. record {
      bytes = s.held.items;
      most = s.most;
      made = s.calls.made;
      failing = s.calls.failing.items;
      faults = s.faults.count;
    } };

    ghost invariant = { λ s. 1 ≤ s.most };
}

impl MemorySink {
    /// Takes at most `most` bytes in a call. `failing` has the numbers of the calls that are to
    /// fail, counted from 1.
    pub fn new(alloc: Global, most: usize, failing: Vec<u64>) -> MemorySink
        requires { 1 ≤ most }
        ensures bytes { result.bytes ≡ [] }
        ensures most { result.most ≡ most }
        ensures made { result.made ≡ 0 }
        ensures failing { result.failing ≡ failing.items }
        ensures faults { result.faults ≡ 0 }
    {
        MemorySink {
            held: Vec::new(alloc),
            most,
            calls: CallList::new(failing),
            faults: FaultCount::none(),
        }
    }

    /// The bytes that were written.
    pub fn bytes(&self) -> &[u8]
        ensures { result.now ≡ self.now.bytes }
    {
        &self.held
    }
}

impl Sink for MemorySink {
    ghost written = { λ s. Some s.bytes };

    ghost faults = { λ s. s.faults };

    fn write(&mut self, piece: &[u8]) -> Result<usize, Failed>
        ensures count { IfOk result (λ n. n ≡ min (length piece.now) self.old.most) }
        ensures appends { IfOk result (λ n. Appends (Some self.old.bytes) (Some self.new.bytes)
            (take n piece.now)) }
        ensures kept { OnErr result (self.new.bytes ≡ self.old.bytes) }
        ensures listed { IsTrue (fails_next self.old.made self.old.failing) → IsErr result }
        ensures counts { CountsWrite self.old self.new }
        ensures cause { HasCause self.old.faults self.new.faults result }
        ensures faults { CountsFaults self.old.faults self.new.faults result }
        ensures takes_some { 1 ≤ self.old.most }
    {
        if self.calls.count() {
            self.faults.rise();
            return Err(Failed);
        }
        let count = piece.len().min(self.most);
        let (front, _) = piece.split_at(count);
        if self.held.extend_from_slice(front).is_err() {
            self.faults.rise();
            return Err(Failed);
        }
        Ok(count)
    }
}
