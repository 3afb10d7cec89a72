ghost use Rattle.statement_fit_laws.specs.ReadFits.{ReadIsSayable, ReadAgain, SayableHasText};

/// The statement that a text is fits the schemas, and a text can say it. So it is read again from what
/// is written of it, and the statements that texts can say are exactly those that have one.
pub fn what_is_read_fits()
    ensures fits { ReadIsSayable }
    ensures again { ReadAgain }
    ensures exact { SayableHasText }
{}
