ghost use Rattle.std.specs.Prelude.{◌≡◌, ◌≤◌, List};
ghost use Rattle.cluster_laws.specs.Headline.{RunHolds};
ghost use Rattle.workload_file.specs.Workload.{IsWorkload};
ghost use Rattle.cluster_core.specs.World.{WorldView, begun, EndsIn};
ghost use Rattle.cluster_core.specs.Turns.{moves_of, most_moves};
ghost use Rattle.workload_file.specs.declared.schedule.Item.{Item};
ghost use Rattle.workload_file.specs.declared.workload.Workload.{Workload};

/// Whatever workload a run begins from, and whatever its schedule, at its end each replica applied the
/// whole log; each session's entries of the log are its own calls, which are what its script's
/// transactions leave without rollbacks, locking reads and duplicates; each published checksum is the
/// source's own; each verdict compares the source's and the replica's rows of its chunk at one position
/// of the log; no table of any replica is passed over; and a table whose verdicts on a replica are all
/// SAME, by digests that distinguish the rows they compare, is told as EQUAL.
pub fn each_run_holds()
    ensures { (workload : Workload) (last : WorldView) → IsWorkload workload → EndsIn (begun workload) last → RunHolds workload last }
{}

/// A run has one end, so its report and its status are determined.
pub fn each_run_has_one_end()
    ensures { (first last other : WorldView) → EndsIn first last → EndsIn first other → last ≡ other }
{}

/// However turns follow each other, a workload makes no more moves than the tool's three and one for
/// each line of a script, each of them once on the source and once on each replica.
pub fn moves_are_bounded()
    ensures { (workload : Workload) (items : List Item) → IsWorkload workload → moves_of items (begun workload) ≤ most_moves workload }
{}
