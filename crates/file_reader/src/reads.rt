ghost use Rattle.std.specs.Prelude.{◌≡◌, ◌≤◌, ◌<◌, ◌^◌, ◌⊎◌, length, IfOk, IfErr};
ghost use Rattle.file_text.specs.declared.faults.FileFault.TheVariants.{Memory};
ghost use Rattle.file_text.specs.File.{IsFirstFault};
ghost use Rattle.file_reader.specs.Reads.{IsRead, IsTaken, is_whole as is_a_whole};
ghost use Rattle.file_state.specs.Keeps.{IsKept};

use crate::faults::fault_at;
use file_lines::{content, first_line, has_feed, is_one_word};
use file_state::FileState;
use file_text::{FileFault, LimitKind};
use line_reader::take_line;
use std::alloc::Global;

/// Whether a piece of the file is a line that is looked at: it ends in a line feed, is the END line or stands behind it.
fn is_whole(state: &FileState, line: &[u8]) -> bool
    requires { length line.now < 2 ^ 31 }
    ensures { result ≡ is_a_whole state.now line.now }
{
    has_feed(line) || is_one_word(b"END".as_slice(), line) || state.marks.ended
}

/// The line of this number, behind the lines that the state is of.
#[tactic(auto, using(crate::proofs::ReadLemmas::is_out, crate::proofs::ReadLemmas::is_cut, crate::proofs::ReadLemmas::is_refused))]
fn take_next(
    alloc: Global,
    state: &mut FileState,
    number: u32,
    line: &[u8],
) -> Result<(), FileFault>
    requires kept { IsKept state.old }
    requires short { length line.now < 2 ^ 31 }
    ensures { IsTaken number line.now state.old state.new result }
{
    if !is_whole(state, line) {
        return Err(FileFault::Truncated { line: number });
    }
    match take_line(alloc, state, number, content(line)) {
        Err(_) => Err(FileFault::Memory),
        Ok(Some(fault)) => Err(fault_at(number, fault)),
        Ok(None) => Ok(()),
    }
}

/// The lines of a file that is short enough.
#[tactic(auto, using(crate::proofs::ReadLemmas::begun, crate::proofs::ReadLemmas::kept_at, crate::proofs::ReadLemmas::number_fits, crate::proofs::ReadLemmas::is_next))]
fn read_short(alloc: Global, bytes: &[u8]) -> Result<FileState, FileFault>
    requires { length bytes.now ≤ 16777216 }
    ensures found { IfOk result (λ state. IsRead bytes.now state) }
    ensures refused { IfErr result (λ fault. (fault ≡ Memory) ⊎ IsFirstFault bytes.now fault) }
{
    let mut state = FileState::new(alloc);
    let mut number = 1u32;
    let mut rest = bytes;
    while let Some((line, more)) = first_line(rest) {
        match take_next(alloc, &mut state, number, line) {
            Err(fault) => return Err(fault),
            Ok(()) => {}
        }
        number += 1;
        rest = more;
    }
    if state.marks.ended {
        Ok(state)
    } else {
        Err(FileFault::Truncated { line: number })
    }
}

/// Reads a workload file: what its lines leave, where the bytes are a file, and else its first fault, or `Memory` where
/// out of memory.
pub fn read_file(alloc: Global, bytes: &[u8]) -> Result<FileState, FileFault>
    ensures found { IfOk result (λ state. IsRead bytes.now state) }
    ensures refused { IfErr result (λ fault. (fault ≡ Memory) ⊎ IsFirstFault bytes.now fault) }
{
    if bytes.len() > 16_777_216 {
        return Err(FileFault::Limit {
            which: LimitKind::Bytes,
            got: 16_777_217,
        });
    }
    read_short(alloc, bytes)
}
