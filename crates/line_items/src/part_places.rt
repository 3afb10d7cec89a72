ghost use Rattle.std.specs.Prelude.{◌≡◌, ◌≤◌, length};
ghost use Rattle.file_text.specs.Parts.{past_end as the_past_end, place_of};
ghost use Rattle.file_text.specs.Rules.{parts_in};

use crate::line_readings::{cutting_of, past_end};
use file_text::Section;
use line_parts::next_part;

/// The place of the part of this number, from 0, of a line of the section; one past the line's end where it has
/// no such part.
pub fn part_place(section: Section, line: &[u8], number: usize) -> u32
    requires { length line.now ≤ 65535 }
    ensures { result ≡ place_of (the_past_end line.now) (parts_in section line.now) number }
{
    let mut place = 1u32;
    let mut rest = line;
    let mut cutting = cutting_of(section);
    let mut left = number;
    while let Some(part) = next_part(cutting, place, rest) {
        if left == 0 {
            return part.place;
        }
        left -= 1;
        place = part.next;
        rest = part.rest;
        cutting = part.cutting;
    }
    past_end(line)
}
