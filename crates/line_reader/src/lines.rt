ghost use Rattle.std.specs.Prelude.{◌≤◌, length, IfOk};
ghost use Rattle.file_state.specs.Keeps.{IsKept};
ghost use Rattle.line_reader.specs.Reads.{Reads};

use crate::section_lines::take_section;
use crate::step_lines::take_unopened;
use file_lines::{Opening, opening_of};
use file_state::FileState;
use line_checks::{LineFault, long_fault};
use row_types::R;
use std::alloc::Global;

/// A line of at most 65,535 bytes, by what its first word begins.
fn take_short(
    alloc: Global,
    state: &mut FileState,
    number: u32,
    line: &[u8],
) -> R<Option<LineFault>>
    requires kept { IsKept state.old }
    requires short { length line.now ≤ 65535 }
    ensures { IfOk result (λ fault. Reads number line.now state.old state.new fault) }
{
    match opening_of(line) {
        Opening::Skipped => {
            state.skip();
            Ok(None)
        }
        Opening::Opened(section) => take_section(alloc, state, section, line),
        Opening::Unopened { place } => take_unopened(alloc, state, number, place, line),
    }
}

/// Reads a line, without its line feed and the CR before it, that has this number in the file, from 1: the fault with
/// which it is refused, or None where it is good, and the state is that of the lines with it. After want of memory
/// nothing is known of the state.
pub fn take_line(
    alloc: Global,
    state: &mut FileState,
    number: u32,
    line: &[u8],
) -> R<Option<LineFault>>
    requires { IsKept state.old }
    ensures { IfOk result (λ fault. Reads number line.now state.old state.new fault) }
{
    match long_fault(line) {
        Some(fault) => Ok(Some(fault)),
        None => take_short(alloc, state, number, line),
    }
}
