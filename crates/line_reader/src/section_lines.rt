ghost use Rattle.std.specs.Prelude.{◌≡◌, ◌≤◌, List, length, IfOk};
ghost use Rattle.file_text.specs.Said.{Said};
ghost use Rattle.file_text.specs.Rules.{Opens};
ghost use Rattle.file_state.specs.Keeps.{Keeps, IsKept};
ghost use Rattle.line_takes.specs.Takes.{Takes, IsLine, IsNext};

use file_state::FileState;
use file_text::Section;
use line_checks::{LineCheck, LineFault, section_items};
use line_items::LineItem;
use line_takes::{
    take_end, take_header, take_isolation, take_local, take_replicas, take_row, take_schedule,
    take_session, take_table,
};
use row_types::R;
use std::alloc::Global;

/// A line of a section in its form.
fn take_items(
    alloc: Global,
    state: &mut FileState,
    section: Section,
    line: &[u8],
    items: Vec<LineItem>,
) -> R<Option<LineFault>>
    requires { IsNext section state.old line.now items.items }
    ensures { IfOk result (λ fault. (before : List Said) → Keeps state.old before → IsLine section before line.now items.items → Takes before line.now state.new fault) }
{
    match section {
        Section::PtcLines => Ok(take_header(state)),
        Section::IsolationLines => Ok(take_isolation(state, items.as_slice())),
        Section::ReplicaLines => Ok(take_replicas(state, line, items.as_slice())),
        Section::TableLines => take_table(alloc, state, line, items.as_slice()),
        Section::RowLines => take_row(alloc, state, line, items),
        Section::SessionLines => take_session(alloc, state),
        Section::LocalLines => take_local(alloc, state, line, items.as_slice()),
        Section::ScheduleLines => take_schedule(alloc, state, line, items.as_slice()),
        Section::EndLines => Ok(take_end(state)),
    }
}

/// A line that begins a section. After want of memory nothing is known of the state.
pub(crate) fn take_section(
    alloc: Global,
    state: &mut FileState,
    section: Section,
    line: &[u8],
) -> R<Option<LineFault>>
    requires kept { IsKept state.old }
    requires short { length line.now ≤ 65535 }
    requires opens { Opens section line.now }
    ensures { IfOk result (λ fault. (before : List Said) → Keeps state.old before → Takes before line.now state.new fault) }
{
    match section_items(alloc, section, &state.marks, &state.counts, line)? {
        LineCheck::Fault(fault) => Ok(Some(fault)),
        LineCheck::Items(items) => take_items(alloc, state, section, line, items),
    }
}
