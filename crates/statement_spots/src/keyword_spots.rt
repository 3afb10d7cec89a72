ghost use Rattle.std.specs.Prelude.{◌≡◌};
ghost use Rattle.std.specs.Option.{option_map};
ghost use Rattle.statement_grammar.specs.Sentence.{one};
ghost use Rattle.statement_reader.specs.Spots.{spot_of};

use statement_reader::{End, Literals, OnChunk, Spot};
use statement_tokens::{Keyword, Word};

pub fn behind_insert(word: &Word) -> Option<Spot>
    ensures { option_map spot_of result ≡ one (spot_of Spot.IntoDue) word.now }
{
    match word {
        Word::Keyword(keyword) => match keyword {
            Keyword::Into => Some(Spot::IntoTable),
            _ => None,
        },
        _ => None,
    }
}

pub fn behind_row_table(word: &Word) -> Option<Spot>
    ensures { option_map spot_of result ≡ one (spot_of Spot.ValuesDue) word.now }
{
    match word {
        Word::Keyword(keyword) => match keyword {
            Keyword::Values => Some(Spot::OpenDue(Literals::OfRow)),
            _ => None,
        },
        _ => None,
    }
}

pub fn behind_delete(word: &Word) -> Option<Spot>
    ensures { option_map spot_of result ≡ one (spot_of Spot.FromDue) word.now }
{
    match word {
        Word::Keyword(keyword) => match keyword {
            Keyword::From => Some(Spot::DeleteTable),
            _ => None,
        },
        _ => None,
    }
}

pub fn behind_update_table(word: &Word) -> Option<Spot>
    ensures { option_map spot_of result ≡ one (spot_of Spot.SetDue) word.now }
{
    match word {
        Word::Keyword(keyword) => match keyword {
            Keyword::Set => Some(Spot::ColumnDue),
            _ => None,
        },
        _ => None,
    }
}

pub fn behind_star(word: &Word) -> Option<Spot>
    ensures { option_map spot_of result ≡ one (spot_of Spot.SelectFrom) word.now }
{
    match word {
        Word::Keyword(keyword) => match keyword {
            Keyword::From => Some(Spot::SelectTable),
            _ => None,
        },
        _ => None,
    }
}

pub fn behind_tree(word: &Word) -> Option<Spot>
    ensures { option_map spot_of result ≡ one (spot_of Spot.LockDue) word.now }
{
    match word {
        Word::Keyword(keyword) => match keyword {
            Keyword::For => Some(Spot::ForDue),
            Keyword::Lock => Some(Spot::InDue),
            _ => None,
        },
        _ => None,
    }
}

pub fn behind_select_table(word: &Word) -> Option<Spot>
    ensures { option_map spot_of result ≡ one (spot_of Spot.SelectWhere) word.now }
{
    match word {
        Word::Keyword(keyword) => match keyword {
            Keyword::Where => Some(Spot::SelectCond),
            Keyword::For => Some(Spot::ForDue),
            Keyword::Lock => Some(Spot::InDue),
            _ => None,
        },
        _ => None,
    }
}

pub fn behind_for(word: &Word) -> Option<Spot>
    ensures { option_map spot_of result ≡ one (spot_of Spot.ForDue) word.now }
{
    match word {
        Word::Keyword(keyword) => match keyword {
            Keyword::Update => Some(Spot::EndDue),
            Keyword::Share => Some(Spot::EndDue),
            _ => None,
        },
        _ => None,
    }
}

pub fn behind_lock(word: &Word) -> Option<Spot>
    ensures { option_map spot_of result ≡ one (spot_of Spot.InDue) word.now }
{
    match word {
        Word::Keyword(keyword) => match keyword {
            Keyword::In => Some(Spot::ShareDue),
            _ => None,
        },
        _ => None,
    }
}

pub fn behind_in(word: &Word) -> Option<Spot>
    ensures { option_map spot_of result ≡ one (spot_of Spot.ShareDue) word.now }
{
    match word {
        Word::Keyword(keyword) => match keyword {
            Keyword::Share => Some(Spot::ModeDue),
            _ => None,
        },
        _ => None,
    }
}

pub fn behind_share(word: &Word) -> Option<Spot>
    ensures { option_map spot_of result ≡ one (spot_of Spot.ModeDue) word.now }
{
    match word {
        Word::Keyword(keyword) => match keyword {
            Keyword::Mode => Some(Spot::EndDue),
            _ => None,
        },
        _ => None,
    }
}

pub fn behind_chunk_table(of: OnChunk, word: &Word) -> Option<Spot>
    ensures { option_map spot_of result ≡ one (spot_of (Spot.ChunkDue of)) word.now }
{
    match word {
        Word::Keyword(keyword) => match keyword {
            Keyword::Chunk => Some(Spot::ChunkNumber(of)),
            _ => None,
        },
        _ => None,
    }
}

pub fn behind_checked_chunk(word: &Word) -> Option<Spot>
    ensures { option_map spot_of result ≡ one (spot_of Spot.EdgeFrom) word.now }
{
    match word {
        Word::Keyword(keyword) => match keyword {
            Keyword::From => Some(Spot::EdgeDue(End::Lower)),
            _ => None,
        },
        _ => None,
    }
}

pub fn behind_lower_edge(word: &Word) -> Option<Spot>
    ensures { option_map spot_of result ≡ one (spot_of Spot.EdgeTo) word.now }
{
    match word {
        Word::Keyword(keyword) => match keyword {
            Keyword::To => Some(Spot::EdgeDue(End::Upper)),
            _ => None,
        },
        _ => None,
    }
}

pub fn behind_edges(word: &Word) -> Option<Spot>
    ensures { option_map spot_of result ≡ one (spot_of Spot.UsingDue) word.now }
{
    match word {
        Word::Keyword(keyword) => match keyword {
            Keyword::Using => Some(Spot::KindDue),
            _ => None,
        },
        _ => None,
    }
}

pub fn behind_using(word: &Word) -> Option<Spot>
    ensures { option_map spot_of result ≡ one (spot_of Spot.KindDue) word.now }
{
    match word {
        Word::Keyword(keyword) => match keyword {
            Keyword::Md5 => Some(Spot::EndDue),
            Keyword::Sha1 => Some(Spot::EndDue),
            _ => None,
        },
        _ => None,
    }
}

pub fn behind_master_chunk(word: &Word) -> Option<Spot>
    ensures { option_map spot_of result ≡ one (spot_of Spot.CountDue) word.now }
{
    match word {
        Word::Keyword(keyword) => match keyword {
            Keyword::Cnt => Some(Spot::CountNumber),
            _ => None,
        },
        _ => None,
    }
}

pub fn behind_count(word: &Word) -> Option<Spot>
    ensures { option_map spot_of result ≡ one (spot_of Spot.CrcDue) word.now }
{
    match word {
        Word::Keyword(keyword) => match keyword {
            Keyword::Crc => Some(Spot::CrcText),
            _ => None,
        },
        _ => None,
    }
}
