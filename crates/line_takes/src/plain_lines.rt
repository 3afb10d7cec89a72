ghost use Rattle.std.specs.Prelude.{◌≡◌, ℕ, List};
ghost use Rattle.file_text.specs.declared.places.Section.TheVariants.{PtcLines, IsolationLines, ReplicaLines, EndLines};
ghost use Rattle.file_text.specs.Said.{Said};
ghost use Rattle.line_items.specs.declared.found_items.LineItem.{LineItem as TheItem};
ghost use Rattle.file_state.specs.Keeps.{Keeps, IsKept};
ghost use Rattle.line_takes.specs.Takes.{Takes, IsLine, IsNext};

use file_state::FileState;
use file_text::Section;
use line_checks::LineFault;
use line_decisions::{end_fault, header_fault, level_fault, replicas_fault};
use line_items::LineItem;
use line_values::{count_in, is_repeatable};

/// A PTC line.
pub fn take_header(state: &mut FileState) -> Option<LineFault>
    requires { IsKept state.old }
    ensures { (before : List Said) (line : List ℕ) (items : List TheItem) → Keeps state.old before → IsLine PtcLines before line items → Takes before line state.new result }
{
    match header_fault(&state.marks) {
        Some(fault) => Some(fault),
        None => {
            state.take_plain(Section::PtcLines);
            None
        }
    }
}

/// An ISOLATION line.
pub fn take_isolation(state: &mut FileState, items: &[LineItem]) -> Option<LineFault>
    requires { IsKept state.old }
    ensures { (before : List Said) (line : List ℕ) → Keeps state.old before → IsLine IsolationLines before line items.now → Takes before line state.new result }
{
    match level_fault(&state.marks, is_repeatable(items)) {
        Some(fault) => Some(fault),
        None => {
            state.take_plain(Section::IsolationLines);
            None
        }
    }
}

/// A REPLICAS line.
pub fn take_replicas(state: &mut FileState, line: &[u8], items: &[LineItem]) -> Option<LineFault>
    requires { IsNext ReplicaLines state.old line.now items.now }
    ensures { (before : List Said) → Keeps state.old before → IsLine ReplicaLines before line.now items.now → Takes before line.now state.new result }
{
    match replicas_fault(&state.marks) {
        Some(fault) => Some(fault),
        None => {
            state.take_replicas(count_in(items) as u32);
            None
        }
    }
}

/// An END line.
pub fn take_end(state: &mut FileState) -> Option<LineFault>
    requires { IsKept state.old }
    ensures { (before : List Said) (line : List ℕ) (items : List TheItem) → Keeps state.old before → IsLine EndLines before line items → Takes before line state.new result }
{
    match end_fault(&state.marks) {
        Some(fault) => Some(fault),
        None => {
            state.take_plain(Section::EndLines);
            None
        }
    }
}
