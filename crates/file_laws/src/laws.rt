ghost use Rattle.file_laws.specs.Laws.{Completes, Sounds, Lives, OneItem, OneMisfit, WholeFits, Total, OneSaid, OneCause, OneFile, OneFault, NeverBoth};

/// The lines of a section are the ways through its places, and what is walked can be led to an end. At a
/// place a text is one item at most.
pub fn places()
    ensures complete { Completes }
    ensures sound { Sounds }
    ensures lives { Lives }
    ensures one_item { OneItem }
{}

/// The parts of a line have one first misfit at most, and none where they are a whole line. Where each
/// place tells its items, one of both holds. A line says one thing, and is refused for one cause.
pub fn one_line()
    ensures misfit { OneMisfit }
    ensures whole { WholeFits }
    ensures total { Total }
    ensures said { OneSaid }
    ensures cause { OneCause }
{}

/// A text is the file of at most one workload, has at most one first fault, and never both.
pub fn one_reading()
    ensures workload { OneFile }
    ensures fault { OneFault }
    ensures never_both { NeverBoth }
{}
