ghost use Rattle.std.specs.Prelude.{IfOk};
ghost use Rattle.file_check.specs.Checks.{IsChecked, IsRefusal};

use file_text::FileFault;
use refusal_text::file_refusal;
use row_types::{Bytes, Memory, R};
use std::alloc::Global;
use workload_reader::read;

/// The line of a fault; out of memory is none.
fn refusal(alloc: Global, fault: FileFault) -> R<Bytes>
    ensures { IfOk result (λ line. IsRefusal fault line) }
{
    match file_refusal(alloc, b"file_check", fault)? {
        None => Err(Memory),
        Some(line) => Ok(line),
    }
}

/// The line with which a file is refused; None where the bytes are a workload file. Answers an error only when
/// out of memory.
#[tactic(auto, using(crate::proofs::CheckLemmas::is_file, crate::proofs::CheckLemmas::is_refused))]
pub fn check(alloc: Global, bytes: &[u8]) -> R<Option<Bytes>>
    ensures { IfOk result (λ answer. IsChecked bytes.now answer) }
{
    match read(alloc, bytes) {
        Ok(_) => Ok(None),
        Err(fault) => Ok(Some(refusal(alloc, fault)?)),
    }
}
