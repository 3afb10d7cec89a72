ghost use Rattle.std.specs.Prelude.{◌≡◌, ◌<◌, ◌+◌, ◌^◌};
ghost use Rattle.checksum_tool.specs.Tools.{at_next_chunk, at_next_table, at_end, behind_table, mastered_tool, begun_again, rolled_back, given_up};
ghost use Rattle.checksum_tool.specs.ToolParts.{tool_view, PartsKept};

use crate::parts::Parts;
use crate::phases::ToolPhase;
use crate::spans::is_high;
use row_types::Edge;
use std::mem;

/// Goes on behind a chunk whose master was published at this position.
pub fn leave_chunk(parts: &mut Parts, position: u64)
    requires kept { PartsKept parts.old }
    requires room { parts.old.chunk + 1 < 2 ^ 32 }
    ensures view { tool_view parts.new ≡ mastered_tool position (tool_view parts.old) }
    ensures kept { PartsKept parts.new }
{
    if is_high(&parts.until) {
        leave_table(parts, position);
        return;
    }
    enter_chunk(parts);
}

fn leave_table(parts: &mut Parts, position: u64)
    requires kept { PartsKept parts.old }
    ensures view { tool_view parts.new ≡ behind_table position (tool_view parts.old) }
    ensures kept { PartsKept parts.new }
{
    let within = parts.table < parts.tables;
    prove!(within);
    if parts.table + 1 < parts.tables {
        enter_table(parts);
        return;
    }
    parts.phase = ToolPhase::Finished;
    parts.ended = Some(position);
}

/// The next chunk begins where the last one ended.
fn enter_chunk(parts: &mut Parts)
    requires kept { PartsKept parts.old }
    requires room { parts.old.chunk + 1 < 2 ^ 32 }
    ensures view { tool_view parts.new ≡ at_next_chunk (tool_view parts.old) }
    ensures kept { PartsKept parts.new }
{
    parts.phase = ToolPhase::Choose;
    parts.chunk += 1;
    parts.after = mem::replace(&mut parts.until, Edge::Low);
    parts.rollbacks = 0;
}

fn enter_table(parts: &mut Parts)
    requires kept { PartsKept parts.old }
    requires more { parts.old.table + 1 < parts.old.tables }
    ensures view { tool_view parts.new ≡ at_next_table (tool_view parts.old) }
    ensures kept { PartsKept parts.new }
{
    parts.phase = ToolPhase::Clear;
    parts.table += 1;
    parts.chunk = 1;
    parts.after = Edge::Low;
    parts.until = Edge::Low;
    parts.rollbacks = 0;
}

/// The chunk was rolled back: it is chosen again, or given up.
pub fn roll_back(parts: &mut Parts)
    requires kept { PartsKept parts.old }
    ensures view { tool_view parts.new ≡ rolled_back (tool_view parts.old) }
    ensures kept { PartsKept parts.new }
{
    if parts.rollbacks < parts.retries {
        parts.phase = ToolPhase::Choose;
        parts.rollbacks += 1;
        return;
    }
    parts.phase = ToolPhase::RetriesUsed {
        rollbacks: parts.rollbacks + 1,
    };
}
