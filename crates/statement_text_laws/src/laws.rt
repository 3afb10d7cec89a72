ghost use Rattle.statement_text_laws.specs.Canonical.{ExprsAreReadBack, CondsAreReadBack};
ghost use Rattle.statement_text_laws.specs.SpelledWords.{WordsAreRead, ExprsAreSpelled, CondsAreSpelled};
ghost use Rattle.statement_text_laws.specs.StatementWords.{StatementsAreSpelled};
ghost use Rattle.statement_text_laws.specs.OneText.{OneListOfTokens, OneStatementOfText, OneFaultOfText, NeverBothOfText};

/// A text has one list of tokens. It is at most one statement, has at most one first fault, and never
/// both.
pub fn one_text()
    ensures tokens { OneListOfTokens }
    ensures statement { OneStatementOfText }
    ensures fault { OneFaultOfText }
    ensures never_both { NeverBothOfText }
{}

/// The tree as which an expression or a condition is written may stand where one is due, and is read as
/// that expression or condition.
pub fn trees_are_read_back()
    ensures expressions { ExprsAreReadBack }
    ensures conditions { CondsAreReadBack }
{}

/// The text of an expression or a condition spells the words of its tree, the text of a statement spells
/// its words, and words that are spelled are the tokens of their text.
pub fn texts_are_spelled()
    ensures words { WordsAreRead }
    ensures expressions { ExprsAreSpelled }
    ensures conditions { CondsAreSpelled }
    ensures statements { StatementsAreSpelled }
{}
