ghost use Rattle.std.specs.Prelude.{◌≡◌, ◌⊎◌, IfOk, IfErr};
ghost use Rattle.file_text.specs.declared.faults.FileFault.{FileFault as TheFault};
ghost use Rattle.file_text.specs.declared.faults.FileFault.TheVariants.{Memory as OutOfMemory};
ghost use Rattle.file_text.specs.File.{IsFirstFault};
ghost use Rattle.workload.specs.declared.workloads.Workload.{Workload as TheWorkload};
ghost use Rattle.workload.specs.Gives.{IsWorkload};
ghost use Rattle.workload_reader.specs.Reads.{IsRead, IsOnly, IsExactly};

use crate::workloads::workload_of;
use file_reader::read_file;
use file_text::FileFault;
use std::alloc::Global;
use workload::Workload;

#[tactic(auto, using(crate::proofs::GiveLemmas::kept_of, crate::proofs::GiveLemmas::found))]
fn read_whole(alloc: Global, bytes: &[u8]) -> Result<Workload, FileFault>
    ensures { IsRead bytes.now result }
{
    match read_file(alloc, bytes) {
        Err(fault) => Err(fault),
        Ok(state) => match workload_of(alloc, state) {
            Err(_) => Err(FileFault::Memory),
            Ok(workload) => Ok(workload),
        },
    }
}

/// Reads a workload file, whose format is this profile's own. Answers the one workload of which the bytes are the file;
/// where they are none, their first fault; and `Memory` where out of memory, in either case.
#[tactic(auto, using(crate::proofs::GiveLemmas::is_found, crate::proofs::GiveLemmas::is_refused, crate::proofs::GiveLemmas::is_only, crate::proofs::GiveLemmas::is_exactly))]
pub fn read(alloc: Global, bytes: &[u8]) -> Result<Workload, FileFault>
    ensures found { IfOk result (λ workload. IsWorkload bytes.now workload) }
    ensures refused { IfErr result (λ fault. (fault ≡ OutOfMemory) ⊎ IsFirstFault bytes.now fault) }
    ensures only { (workload : TheWorkload) → IsWorkload bytes.now workload → IsOnly workload result }
    ensures exactly { (fault : TheFault) → IsFirstFault bytes.now fault → IsExactly fault result }
{
    read_whole(alloc, bytes)
}
