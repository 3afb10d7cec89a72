//! What a run may rely on of the workload that a file is.
#![tactic(auto)]

ghost use Rattle.workload_laws.specs.Sound.{FilesAreSound};

/// The workload of any file has schemas that are schemas, tables that are tables of them, scripts of clients' statements
/// that fit them, no more of anything than the limits, and a schedule whose actors are all there.
pub fn files_are_sound()
    ensures { FilesAreSound }
{}
