//! Where a program's bytes come from and go to. Sources and sinks count their faults, and tell
//! their bytes where they can.
#![tactic(auto)]

mod call_list;
mod fault_count;
mod memory;
mod plain;
mod standard;
mod unread;
mod whole;

pub use memory::{MemorySink, MemorySource};
pub use plain::{PlainSink, PlainSource};
pub use standard::{StdSink, StdSource};
use std::alloc::AllocError;
pub use whole::{read_to_limit, write_all};

/// A read or a write failed.
#[derive(Clone, Copy, Debug, PartialEq, Eq)]
pub struct Failed;

/// The exit status of a program.
#[derive(Clone, Copy, Debug, PartialEq, Eq)]
pub struct Status {
    pub code: u8,
}

/// Why a whole input was not read.
#[derive(Clone, Copy, Debug, PartialEq, Eq)]
pub enum ReadFault {
    /// The source failed.
    Failed,
    /// There was no memory left for the bytes.
    Memory,
}

impl From<Failed> for ReadFault {
    ghost use Rattle.std.specs.Prelude.{◌≡◌};
    ghost use Rattle.ptc_io.specs.declared.ReadFault.TheVariants.{Failed};

    ghost from_gives = { λ _ e. e ≡ Failed };

    fn from(_failed: Failed) -> ReadFault {
        ReadFault::Failed
    }
}

impl From<AllocError> for ReadFault {
    ghost use Rattle.std.specs.Prelude.{◌≡◌};
    ghost use Rattle.ptc_io.specs.declared.ReadFault.TheVariants.{Memory};

    ghost from_gives = { λ _ e. e ≡ Memory };

    fn from(_error: AllocError) -> ReadFault {
        ReadFault::Memory
    }
}

/// What gives bytes in pieces.
pub trait Source {
    ghost use Rattle.std.specs.Prelude.{◌≡◌, ℕ, ◌<◌, ◌≤◌, List, length, take, IfOk, OnErr};
    ghost use Rattle.std.specs.declared.option.Option.{Option};
    ghost use Rattle.ptc_io.specs.Faults.{HasCause};
    ghost use Rattle.ptc_io.specs.Bytes.{Loses, IsAtEnd};

    // The bytes that are left, where the source tells them.
    ghost left: { Self → Option (List ℕ) };

    // How many faults there have been.
    ghost faults: { Self → ℕ };

    /// Moves the first bytes that are left into the front of `buf`, and gives their number. What
    /// stands after them in `buf` is left open. 0 into a buffer that is not empty is the end.
    fn read(&mut self, buf: &mut [u8]) -> Result<usize, Failed>
        ensures bound { IfOk result (λ n. n ≤ length buf.old) }
        ensures moves { IfOk result (λ n. Loses (left self.old) (left self.new) (take n buf.new)) }
        ensures end { IfOk result (λ n. n ≡ 0 → 0 < length buf.old → IsAtEnd (left self.new)) }
        ensures kept { OnErr result (left self.new ≡ left self.old) }
        ensures cause { HasCause (faults self.old) (faults self.new) result };
}

/// What takes bytes in pieces.
pub trait Sink {
    ghost use Rattle.std.specs.Prelude.{◌≡◌, ℕ, ◌<◌, ◌≤◌, List, length, take, IfOk, OnErr};
    ghost use Rattle.std.specs.declared.option.Option.{Option};
    ghost use Rattle.ptc_io.specs.Faults.{HasCause, HasRisen};
    ghost use Rattle.ptc_io.specs.Bytes.{Appends};

    // The bytes that were written, where the sink tells them.
    ghost written: { Self → Option (List ℕ) };

    // How many faults there have been.
    ghost faults: { Self → ℕ };

    /// Takes the first bytes of `piece`, and gives their number. 0 of a piece that is not empty is
    /// a fault.
    fn write(&mut self, piece: &[u8]) -> Result<usize, Failed>
        ensures bound { IfOk result (λ n. n ≤ length piece.now) }
        ensures appends { IfOk result (λ n. Appends (written self.old) (written self.new)
            (take n piece.now)) }
        ensures kept { OnErr result (written self.new ≡ written self.old) }
        ensures cause { HasCause (faults self.old) (faults self.new) result }
        ensures stuck { IfOk result (λ n. n ≡ 0 → 0 < length piece.now
            → HasRisen (faults self.old) (faults self.new)) };
}

#[cfg(test)]
mod tests;
