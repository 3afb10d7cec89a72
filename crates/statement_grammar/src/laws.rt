ghost use Rattle.statement_grammar.specs.Grammar.{Shape};
ghost use Rattle.statement_grammar.specs.Laws.{Completes, Sounds};
ghost use Rattle.statement_grammar.specs.Begins.{Lives, Begun};
ghost use Rattle.statement_grammar.specs.SentenceMachine.{CompleteSentences, SoundSentences, LiveSentences, BegunSentences};
ghost use Rattle.statement_grammar.specs.SoFar.{OneCut, OneCutOnTheWay};
ghost use Rattle.statement_grammar.specs.FirstFault.{FirstIsLeast};
ghost use Rattle.statement_grammar.specs.Unique.{OneStatement, OneFirstFault, NeverBoth};

/// The machine reads the trees of the grammar and nothing else, and goes on exactly where the tokens so
/// far begin a tree.
pub fn reads()
    ensures complete { Completes Shape }
    ensures sound { Sounds }
    ensures lives { Lives }
    ensures begun { Begun }
{}

/// The spots and the machine read the statements and nothing else, and go on exactly where the tokens
/// so far begin a statement.
pub fn sentences()
    ensures complete { CompleteSentences }
    ensures sound { SoundSentences }
    ensures lives { LiveSentences }
    ensures begun { BegunSentences }
{}

/// The tree so far is in the tokens that are read: it doesn't depend on how they go on.
pub fn one_cut()
    ensures at_end { OneCut }
    ensures on_the_way { OneCutOnTheWay }
{}

/// A list of tokens is at most one statement, has at most one first fault, and never both. The first
/// fault is the one of the least place, and at one place the first in the order of `TextFault`.
pub fn one_reading()
    ensures statement { OneStatement }
    ensures fault { OneFirstFault }
    ensures never_both { NeverBoth }
    ensures least { FirstIsLeast }
{}
