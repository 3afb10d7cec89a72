ghost use Rattle.std.specs.Prelude.{◌≡◌, [], get_or};
ghost use Rattle.line_items.specs.Counted.{IsCounted};

use std::alloc::Global;

/// What the lines before a line count up to.
#[derive(Drop)]
pub struct Counts {
    /// SESSION lines
    pub sessions: u32,
    /// LOCAL lines by their replica's number; 0 at 0
    pub locals: Vec<u32>,
    /// turns and operator's words of the schedule, with repeats
    pub scheduled: u32,
}

impl Counts {
    /// Of no lines.
    #[tactic(auto, using(crate::proofs::CountLemmas::none_counted))]
    pub fn new(alloc: Global) -> Counts
        ensures { IsCounted result [] }
    {
        Counts {
            sessions: 0,
            locals: Vec::new(alloc),
            scheduled: 0,
        }
    }

    /// The LOCAL lines of a replica; 0 for a number that no replica has.
    pub fn locals_of(&self, replica: u128) -> u32
        ensures { result ≡ get_or self.now.locals.items replica 0 }
    {
        let locals = self.locals.as_slice();
        if replica < locals.len() as u128 {
            locals[replica as usize]
        } else {
            0
        }
    }
}

/// What the items of a line count up to, each up to one more than its limit.
#[derive(Clone, Copy)]
pub struct Tally {
    /// turns and operator's words, with repeats; at most 10,000,001
    pub turns: u32,
    /// names; at most 18
    pub names: u32,
    /// the last item is a `-`
    pub behind_minus: bool,
}
