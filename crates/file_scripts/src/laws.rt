ghost use Rattle.file_scripts.specs.Laws.{NoScripts, SessionBegins, LocalBegins, ScriptsStay, StepComes, SomeScript, SessionsAre, LocalsAre, StepsTold, LinesTold, SessionsFew, LocalsFew, TurnsFew, CountsStay, SessionCounted, LocalCounted, TurnsCounted, TurnsKept, ReplicasTold, NodesTold, ActorsTold, FirstTold, NoneTold, NoneUndeclared, NoItems, ItemsStay, WordsFit, ItemsMore};

/// What one line more makes of the scripts of the lines before, and which scripts they are in the end.
pub fn scripts_of_lines()
    ensures none { NoScripts }
    ensures session { SessionBegins }
    ensures local { LocalBegins }
    ensures step { StepComes }
    ensures stay { ScriptsStay }
    ensures some { SomeScript }
    ensures sessions { SessionsAre }
    ensures locals { LocalsAre }
{}

/// Which lines break the rule on scripts, told from whether a transaction is open.
pub fn what_breaks_scripts()
    ensures steps { StepsTold }
    ensures lines { LinesTold }
{}

/// What one line more makes of the counts of the lines before.
pub fn counts_of_lines()
    ensures session { SessionCounted }
    ensures local { LocalCounted }
    ensures turns { TurnsCounted }
    ensures stay { CountsStay }
    ensures kept { TurnsKept }
{}

/// What lines that pass no limit count up to.
pub fn counts_within_limits()
    ensures sessions { SessionsFew }
    ensures locals { LocalsFew }
    ensures turns { TurnsFew }
{}

/// Who is declared behind lines whose counts are kept, and which word of a SCHEDULE line is the first that
/// names nobody.
pub fn who_is_declared()
    ensures replicas { ReplicasTold }
    ensures nodes { NodesTold }
    ensures actors { ActorsTold }
    ensures first { FirstTold }
    ensures none { NoneTold }
    ensures undeclared { NoneUndeclared }
{}

/// What one line more makes of the schedule of the lines before.
pub fn schedule_of_lines()
    ensures none { NoItems }
    ensures more { ItemsMore }
    ensures stay { ItemsStay }
    ensures fit { WordsFit }
{}
