ghost use Rattle.std.specs.Prelude.{◌≡◌, ◌≤◌, ℕ, List, length, IfOk};
ghost use Rattle.file_text.specs.declared.places.Section.TheVariants.{SessionLines, LocalLines, ScheduleLines};
ghost use Rattle.file_text.specs.Said.{Said};
ghost use Rattle.line_items.specs.declared.found_items.LineItem.{LineItem as TheItem};
ghost use Rattle.file_state.specs.Keeps.{Keeps, IsKept};
ghost use Rattle.line_takes.specs.Takes.{Takes, IsLine, IsNext};

use file_state::FileState;
use line_checks::LineFault;
use line_decisions::{local_fault, schedule_fault, session_fault};
use line_items::LineItem;
use line_values::{replica_in, words_in};
use row_types::R;
use std::alloc::Global;

/// A SESSION line. After want of memory nothing is known of the state.
pub fn take_session(alloc: Global, state: &mut FileState) -> R<Option<LineFault>>
    requires { IsKept state.old }
    ensures { IfOk result (λ fault. (before : List Said) (line : List ℕ) (items : List TheItem) → Keeps state.old before → IsLine SessionLines before line items → Takes before line state.new fault) }
{
    match session_fault(&state.marks) {
        Some(fault) => Ok(Some(fault)),
        None => {
            state.take_session(alloc)?;
            Ok(None)
        }
    }
}

/// A LOCAL line. After want of memory nothing is known of the state.
pub fn take_local(
    alloc: Global,
    state: &mut FileState,
    line: &[u8],
    items: &[LineItem],
) -> R<Option<LineFault>>
    requires { IsNext LocalLines state.old line.now items.now }
    ensures { IfOk result (λ fault. (before : List Said) → Keeps state.old before → IsLine LocalLines before line.now items.now → Takes before line.now state.new fault) }
{
    let replica = replica_in(items);
    match local_fault(&state.marks, line, replica) {
        Some(fault) => Ok(Some(fault)),
        None => {
            state.take_local(alloc, replica as u32)?;
            Ok(None)
        }
    }
}

/// A SCHEDULE line. After want of memory nothing is known of the state.
pub fn take_schedule(
    alloc: Global,
    state: &mut FileState,
    line: &[u8],
    items: &[LineItem],
) -> R<Option<LineFault>>
    requires { IsNext ScheduleLines state.old line.now items.now }
    ensures { IfOk result (λ fault. (before : List Said) → Keeps state.old before → IsLine ScheduleLines before line.now items.now → Takes before line.now state.new fault) }
{
    let words = words_in(alloc, items)?;
    match schedule_fault(&state.marks, &state.counts, line, words.as_slice()) {
        Some(fault) => Ok(Some(fault)),
        None => {
            state.take_schedule(words.as_slice())?;
            Ok(None)
        }
    }
}
