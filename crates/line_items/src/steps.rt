ghost use Rattle.std.specs.Prelude.{◌≡◌, ◌<◌, ◌-◌, ◌^◌, [], length, IfOk};
ghost use Rattle.file_text.specs.Spots.{may_end as may_end_at};
ghost use Rattle.file_text.specs.declared.places.Spot.TheVariants.{SectionDue};
ghost use Rattle.line_items.specs.declared.steps.Step.TheVariants.{Taken};
ghost use Rattle.line_items.specs.Readings.{step_of as the_step_of, IsBehind, IsStart, Steps};

use crate::counts::{Counts, Tally};
use crate::found_items::{FoundItem, LineItem};
use crate::item_places::item_at;
use crate::offsets::offset_in;
use crate::ranges::{misplaced, passed};
use crate::tallies::tally_behind;
use file_text::{LimitKind, Section, Spot};
use row_types::R;
use std::alloc::Global;

/// What the next part does to what is read of its line.
#[derive(Clone, Copy)]
pub(crate) enum Step {
    /// it fits, and is taken
    Taken,
    /// with it the line passes a limit
    Over(LimitKind),
    /// it does not fit; how far from its first byte
    Unfit { offset: u32 },
}

/// What is read of a line.
#[derive(Drop)]
pub(crate) struct Walk {
    pub(crate) items: Vec<LineItem>,
    pub(crate) spot: Spot,
    pub(crate) tally: Tally,
}

fn step_of(section: Section, counts: &Counts, tally: Tally, item: &LineItem, text: &[u8]) -> Step
    requires { length text.now < 2 ^ 32 - 1 }
    ensures { result ≡ the_step_of section counts.now tally item.now text.now }
{
    match misplaced(counts, tally, item) {
        Some(number) => Step::Unfit {
            offset: offset_in(text, number),
        },
        None => match passed(section, counts, tally, item) {
            Some(which) => Step::Over(which),
            None => Step::Taken,
        },
    }
}

impl Walk {
    /// Nothing of a line of the section.
    pub(crate) fn new(alloc: Global, section: Section) -> Walk
        ensures { IsStart section result }
    {
        Walk {
            items: Vec::new(alloc),
            spot: Spot::SectionDue(section),
            tally: Tally {
                turns: 0,
                names: 0,
                behind_minus: false,
            },
        }
    }

    fn push(&mut self, found: FoundItem) -> R<()>
        ensures { IfOk result (λ done. IsBehind self.old found self.new) }
    {
        let tally = tally_behind(self.tally, &found.item);
        self.items.push(found.item)?;
        self.tally = tally;
        self.spot = found.next;
        Ok(())
    }

    fn add(&mut self, section: Section, counts: &Counts, text: &[u8], found: FoundItem) -> R<Step>
        requires { length text.now < 2 ^ 32 - 1 }
        ensures step { IfOk result (λ step. step ≡ the_step_of section counts.now self.old.tally found.item text.now) }
        ensures taken { IfOk result (λ step. step ≡ Taken → IsBehind self.old found self.new) }
    {
        match step_of(section, counts, self.tally, &found.item, text) {
            Step::Taken => {
                self.push(found)?;
                Ok(Step::Taken)
            }
            Step::Over(which) => Ok(Step::Over(which)),
            Step::Unfit { offset } => Ok(Step::Unfit { offset }),
        }
    }

    /// Takes the next part of the line, if it fits.
    #[tactic(auto, using(crate::proofs::StepLemmas::an_item, crate::proofs::StepLemmas::no_item))]
    pub(crate) fn take(
        &mut self,
        alloc: Global,
        section: Section,
        counts: &Counts,
        text: &[u8],
    ) -> R<Step>
        requires { length text.now < 2 ^ 32 - 1 }
        ensures { IfOk result (λ step. Steps section counts.now text.now self.old self.new step) }
    {
        match item_at(alloc, self.spot, text)? {
            None => Ok(Step::Unfit { offset: 0 }),
            Some(found) => {
                let step = self.add(section, counts, text, found)?;
                Ok(step)
            }
        }
    }
}

/// Whether a line may end at this place.
pub(crate) fn may_end(spot: Spot) -> bool
    ensures { result ≡ may_end_at spot }
{
    match spot {
        Spot::TurnsDue => true,
        Spot::NothingDue => true,
        _ => false,
    }
}
