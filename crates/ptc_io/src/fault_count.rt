// A count that only clauses read: no number of a machine holds a count that may always rise.
// Nothing ties it to memory. What it says is what `read` and `write` promise of it, to code that is
// generic over them: that a call which failed has raised it.
ghost use Rattle.std.specs.Prelude.{◌≡◌, ℕ, ◌+◌};
ghost use Rattle.std.specs.Borrow.{ftrue};

use std::marker::Model;

// It takes no bytes.
#[derive(Drop)]
pub(crate) struct FaultCount {
    pub(crate) ghost count: { ℕ },
}

impl Model for FaultCount {
    ghost also_owns = { λ _. ftrue };
}

impl FaultCount {
    pub(crate) fn none() -> FaultCount
        ensures { result.count ≡ 0 }
    {
        FaultCount {}
    }

    fn risen(_before: &FaultCount) -> FaultCount
        ensures { result.count ≡ _before.now.count + 1 }
    {
        FaultCount {}
    }

    pub(crate) fn rise(&mut self)
        ensures { self.new.count ≡ self.old.count + 1 }
    {
        *self = FaultCount::risen(self);
    }
}
