ghost use Rattle.std.specs.Prelude.{◌≡◌, ◌≤◌, ◌<◌, ◌^◌, ◌+◌, length, List, IfOk};
ghost use Rattle.file_text.specs.Said.{Said};
ghost use Rattle.file_text.specs.Parts.{past_end as the_past_end};
ghost use Rattle.line_items.specs.Counted.{IsCounted};
ghost use Rattle.line_items.specs.Readings.{cutting_of as the_cutting_of, ends as the_ends, IsReading};

use crate::counts::Counts;
use crate::found_items::LineItem;
use crate::line_ends::trimmed;
use crate::steps::{Step, Walk, may_end};
use file_text::{LimitKind, Section};
use line_parts::{Cutting, next_part};
use row_types::R;
use std::alloc::Global;

/// A line of a section as it is read.
#[derive(Drop)]
pub enum LineReading {
    /// its items, which are a line of the section
    Whole(Vec<LineItem>),
    /// it passes a limit before its first misfit
    Over(LimitKind),
    /// the place of the first word or sign that does not fit, or one past the line's end
    Misfit { place: u32 },
}

pub(crate) fn cutting_of(section: Section) -> Cutting
    ensures { result ≡ the_cutting_of section }
{
    match section {
        Section::TableLines => Cutting::SignedWords,
        Section::RowLines => Cutting::RowFront,
        _ => Cutting::Words,
    }
}

/// One past the line's last byte that is no space.
pub(crate) fn past_end(line: &[u8]) -> u32
    requires { length line.now < 2 ^ 31 }
    ensures { result ≡ the_past_end line.now }
{
    trimmed(line).len() as u32 + 1
}

fn ends(walk: Walk, line: &[u8]) -> LineReading
    requires { length line.now < 2 ^ 31 }
    ensures { result ≡ the_ends walk line.now }
{
    if may_end(walk.spot) {
        LineReading::Whole(walk.items)
    } else {
        LineReading::Misfit {
            place: past_end(line),
        }
    }
}

/// A line of a section, read from the left, behind lines with these counts.
#[tactic(auto, using(crate::proofs::ReadLemmas::all_told, crate::proofs::ReadLemmas::part_short))]
pub fn read_line(alloc: Global, section: Section, counts: &Counts, line: &[u8]) -> R<LineReading>
    requires { length line.now ≤ 65535 }
    ensures { IfOk result (λ reading. (before : List Said) → IsCounted counts.now before → IsReading section before line.now reading) }
{
    let mut walk = Walk::new(alloc, section);
    let mut place = 1u32;
    let mut rest = line;
    let mut cutting = cutting_of(section);
    while let Some(part) = next_part(cutting, place, rest) {
        match walk.take(alloc, section, counts, part.text)? {
            Step::Taken => {}
            Step::Over(which) => return Ok(LineReading::Over(which)),
            Step::Unfit { offset } => {
                return Ok(LineReading::Misfit {
                    place: part.place + offset,
                });
            }
        }
        place = part.next;
        rest = part.rest;
        cutting = part.cutting;
    }
    Ok(ends(walk, line))
}
