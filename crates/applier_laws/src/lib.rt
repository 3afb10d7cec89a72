//! What a replica's history is, over every course of turns of its workers and of local sessions' calls.
#![tactic(auto)]

ghost use Rattle.applier_laws.specs.Follows.{AppliersFollow};

/// However its workers take turns, and whatever local sessions do between them, a replica's history follows the
/// source's log: it applied entries 1, 2 and so on in order, each once and with its statements, and only
/// transactions of local sessions stand between them.
pub fn appliers_follow()
    ensures { AppliersFollow }
{}
