ghost use Rattle.std.specs.Prelude.{◌≡◌, ◌+◌};
ghost use Rattle.file_text.specs.Causes.{most as the_most};
ghost use Rattle.file_reader.specs.Faults.{fault_at as the_fault_at};

use file_text::{FileFault, LimitKind};
use line_checks::LineFault;

fn most(which: LimitKind) -> u64
    ensures { result ≡ the_most which }
{
    match which {
        LimitKind::Bytes => 16_777_216,
        LimitKind::LineBytes => 65_535,
        LimitKind::Tables => 16,
        LimitKind::Columns => 16,
        LimitKind::Replicas => 8,
        LimitKind::Sessions => 64,
        LimitKind::Locals => 16,
        LimitKind::Schedule => 10_000_000,
    }
}

/// The fault of a file whose line of this number is refused.
pub(crate) fn fault_at(number: u32, fault: LineFault) -> FileFault
    ensures { result ≡ the_fault_at number fault }
{
    match fault {
        LineFault::Limit(which) => FileFault::Limit {
            which,
            got: most(which) + 1,
        },
        LineFault::Cause(cause) => FileFault::Line { number, cause },
        LineFault::Isolation => FileFault::Isolation { line: number },
    }
}
