ghost use Rattle.std.specs.Prelude.{◌≡◌};
ghost use Rattle.std.specs.Option.{option_map};
ghost use Rattle.statement_grammar.specs.Sentence.{behind_chunk as chunk_next, behind_edge as edge_next, behind_literals as literals_next, one, when_so};
ghost use Rattle.statement_reader.specs.Spots.{end_of, literals_of, spot_of, tool_of};

use crate::keyword_spots::{
    behind_checked_chunk, behind_chunk_table, behind_count, behind_delete, behind_edges,
    behind_for, behind_in, behind_insert, behind_lock, behind_lower_edge, behind_master_chunk,
    behind_row_table, behind_select_table, behind_share, behind_star, behind_tree,
    behind_update_table, behind_using,
};
use crate::numbers::{is_chunk, is_count, is_crc};
use ptc_statement::Op;
use statement_reader::{End, Literals, OnChunk, Spot};
use statement_tokens::{Keyword, Math, Word};

fn behind_edge(end: End) -> Spot
    ensures { spot_of result ≡ edge_next (end_of end) }
{
    match end {
        End::Lower => Spot::EdgeTo,
        End::Upper => Spot::UsingDue,
    }
}

fn behind_literals(of: Literals) -> Spot
    ensures { spot_of result ≡ literals_next (literals_of of) }
{
    match of {
        Literals::OfRow => Spot::EndDue,
        Literals::OfEdge(end) => behind_edge(end),
    }
}

fn behind_chunk(tool: OnChunk) -> Spot
    ensures { spot_of result ≡ chunk_next (tool_of tool) }
{
    match tool {
        OnChunk::Checks => Spot::EdgeFrom,
        OnChunk::SetsMaster => Spot::CountDue,
    }
}

fn when(holds: bool, spot: Spot) -> Option<Spot>
    ensures { option_map spot_of result ≡ when_so holds (spot_of spot) }
{
    if holds { Some(spot) } else { None }
}

fn first_word(word: &Word) -> Option<Spot>
    ensures { option_map spot_of result ≡ one (spot_of Spot.StatementDue) word.now }
{
    match word {
        Word::Keyword(keyword) => match keyword {
            Keyword::Insert => Some(Spot::IntoDue),
            Keyword::Replace => Some(Spot::IntoDue),
            Keyword::Delete => Some(Spot::FromDue),
            Keyword::Update => Some(Spot::UpdateTable),
            Keyword::Select => Some(Spot::StarDue),
            Keyword::Checksum => Some(Spot::ChunkTable(OnChunk::Checks)),
            Keyword::SetMaster => Some(Spot::ChunkTable(OnChunk::SetsMaster)),
            Keyword::ClearChecks => Some(Spot::ClearTable),
            _ => None,
        },
        _ => None,
    }
}

fn row_table(word: &Word) -> Option<Spot>
    ensures { option_map spot_of result ≡ one (spot_of Spot.IntoTable) word.now }
{
    match word {
        Word::Name(_) => Some(Spot::ValuesDue),
        _ => None,
    }
}

fn delete_table(word: &Word) -> Option<Spot>
    ensures { option_map spot_of result ≡ one (spot_of Spot.DeleteTable) word.now }
{
    match word {
        Word::Name(_) => Some(Spot::WhereDue),
        _ => None,
    }
}

fn update_table(word: &Word) -> Option<Spot>
    ensures { option_map spot_of result ≡ one (spot_of Spot.UpdateTable) word.now }
{
    match word {
        Word::Name(_) => Some(Spot::SetDue),
        _ => None,
    }
}

fn select_table(word: &Word) -> Option<Spot>
    ensures { option_map spot_of result ≡ one (spot_of Spot.SelectTable) word.now }
{
    match word {
        Word::Name(_) => Some(Spot::SelectWhere),
        _ => None,
    }
}

fn chunk_table(of: OnChunk, word: &Word) -> Option<Spot>
    ensures { option_map spot_of result ≡ one (spot_of (Spot.ChunkTable of)) word.now }
{
    match word {
        Word::Name(_) => Some(Spot::ChunkDue(of)),
        _ => None,
    }
}

fn clear_table(word: &Word) -> Option<Spot>
    ensures { option_map spot_of result ≡ one (spot_of Spot.ClearTable) word.now }
{
    match word {
        Word::Name(_) => Some(Spot::EndDue),
        _ => None,
    }
}

fn list_opens(of: Literals, word: &Word) -> Option<Spot>
    ensures { option_map spot_of result ≡ one (spot_of (Spot.OpenDue of)) word.now }
{
    match word {
        Word::Open => Some(Spot::LiteralDue(of)),
        _ => None,
    }
}

fn literal(of: Literals, word: &Word) -> Option<Spot>
    ensures { option_map spot_of result ≡ one (spot_of (Spot.LiteralDue of)) word.now }
{
    match word {
        Word::Number(_) => Some(Spot::LiteralEnds(of)),
        Word::Text(_) => Some(Spot::LiteralEnds(of)),
        Word::Null => Some(Spot::LiteralEnds(of)),
        Word::Math(math) => match math {
            Math::Minus => Some(Spot::DigitsDue(of)),
            _ => None,
        },
        _ => None,
    }
}

fn digits(of: Literals, word: &Word) -> Option<Spot>
    ensures { option_map spot_of result ≡ one (spot_of (Spot.DigitsDue of)) word.now }
{
    match word {
        Word::Number(_) => Some(Spot::LiteralEnds(of)),
        _ => None,
    }
}

fn literal_ends(of: Literals, word: &Word) -> Option<Spot>
    ensures { option_map spot_of result ≡ one (spot_of (Spot.LiteralEnds of)) word.now }
{
    match word {
        Word::Comma => Some(Spot::LiteralDue(of)),
        Word::Close => Some(behind_literals(of)),
        _ => None,
    }
}

fn where_or_end(word: &Word) -> Option<Spot>
    ensures { option_map spot_of result ≡ one (spot_of Spot.WhereDue) word.now }
{
    match word {
        Word::Keyword(keyword) => match keyword {
            Keyword::Where => Some(Spot::CondDue),
            _ => None,
        },
        Word::Semicolon => Some(Spot::NothingDue),
        _ => None,
    }
}

fn condition_ends(word: &Word) -> Option<Spot>
    ensures { option_map spot_of result ≡ one (spot_of Spot.CondEnds) word.now }
{
    match word {
        Word::Semicolon => Some(Spot::NothingDue),
        _ => None,
    }
}

fn column(word: &Word) -> Option<Spot>
    ensures { option_map spot_of result ≡ one (spot_of Spot.ColumnDue) word.now }
{
    match word {
        Word::Name(_) => Some(Spot::EqualsDue),
        _ => None,
    }
}

fn equals(word: &Word) -> Option<Spot>
    ensures { option_map spot_of result ≡ one (spot_of Spot.EqualsDue) word.now }
{
    match word {
        Word::Compare(op) => match op {
            Op::Eq => Some(Spot::ExprDue),
            _ => None,
        },
        _ => None,
    }
}

fn assignment_ends(word: &Word) -> Option<Spot>
    ensures { option_map spot_of result ≡ one (spot_of Spot.SetEnds) word.now }
{
    match word {
        Word::Comma => Some(Spot::ColumnDue),
        Word::Keyword(keyword) => match keyword {
            Keyword::Where => Some(Spot::CondDue),
            _ => None,
        },
        Word::Semicolon => Some(Spot::NothingDue),
        _ => None,
    }
}

fn star(word: &Word) -> Option<Spot>
    ensures { option_map spot_of result ≡ one (spot_of Spot.StarDue) word.now }
{
    match word {
        Word::Math(math) => match math {
            Math::Times => Some(Spot::SelectFrom),
            _ => None,
        },
        _ => None,
    }
}

fn chunk_number(of: OnChunk, word: &Word) -> Option<Spot>
    ensures { option_map spot_of result ≡ one (spot_of (Spot.ChunkNumber of)) word.now }
{
    match word {
        Word::Number(number) => when(is_chunk(*number), behind_chunk(of)),
        _ => None,
    }
}

fn edge(of: End, word: &Word) -> Option<Spot>
    ensures { option_map spot_of result ≡ one (spot_of (Spot.EdgeDue of)) word.now }
{
    match word {
        Word::Keyword(keyword) => match keyword {
            Keyword::Low => Some(behind_edge(of)),
            Keyword::High => Some(behind_edge(of)),
            Keyword::Before => Some(Spot::OpenDue(Literals::OfEdge(of))),
            Keyword::After => Some(Spot::OpenDue(Literals::OfEdge(of))),
            _ => None,
        },
        _ => None,
    }
}

fn count_number(word: &Word) -> Option<Spot>
    ensures { option_map spot_of result ≡ one (spot_of Spot.CountNumber) word.now }
{
    match word {
        Word::Number(number) => when(is_count(*number), Spot::CrcDue),
        _ => None,
    }
}

fn crc_text(word: &Word) -> Option<Spot>
    ensures { option_map spot_of result ≡ one (spot_of Spot.CrcText) word.now }
{
    match word {
        Word::Text(text) => when(is_crc(text.as_slice()), Spot::EndDue),
        _ => None,
    }
}

fn end(word: &Word) -> Option<Spot>
    ensures { option_map spot_of result ≡ one (spot_of Spot.EndDue) word.now }
{
    match word {
        Word::Semicolon => Some(Spot::NothingDue),
        _ => None,
    }
}

/// What is due behind a single token; None where it doesn't fit.
pub fn spot_behind(spot: Spot, word: &Word) -> Option<Spot>
    ensures { option_map spot_of result ≡ one (spot_of spot) word.now }
{
    match spot {
        Spot::StatementDue => first_word(word),
        Spot::IntoDue => behind_insert(word),
        Spot::IntoTable => row_table(word),
        Spot::ValuesDue => behind_row_table(word),
        Spot::OpenDue(of) => list_opens(of, word),
        Spot::LiteralDue(of) => literal(of, word),
        Spot::LiteralEnds(of) => literal_ends(of, word),
        Spot::DigitsDue(of) => digits(of, word),
        Spot::FromDue => behind_delete(word),
        Spot::DeleteTable => delete_table(word),
        Spot::WhereDue => where_or_end(word),
        Spot::CondDue => None,
        Spot::CondEnds => condition_ends(word),
        Spot::UpdateTable => update_table(word),
        Spot::SetDue => behind_update_table(word),
        Spot::ColumnDue => column(word),
        Spot::EqualsDue => equals(word),
        Spot::ExprDue => None,
        Spot::SetEnds => assignment_ends(word),
        Spot::StarDue => star(word),
        Spot::SelectFrom => behind_star(word),
        Spot::SelectTable => select_table(word),
        Spot::SelectWhere => behind_select_table(word),
        Spot::SelectCond => None,
        Spot::LockDue => behind_tree(word),
        Spot::ForDue => behind_for(word),
        Spot::InDue => behind_lock(word),
        Spot::ShareDue => behind_in(word),
        Spot::ModeDue => behind_share(word),
        Spot::ChunkTable(of) => chunk_table(of, word),
        Spot::ChunkDue(of) => behind_chunk_table(of, word),
        Spot::ChunkNumber(of) => chunk_number(of, word),
        Spot::EdgeFrom => behind_checked_chunk(word),
        Spot::EdgeDue(of) => edge(of, word),
        Spot::EdgeTo => behind_lower_edge(word),
        Spot::UsingDue => behind_edges(word),
        Spot::KindDue => behind_using(word),
        Spot::CountDue => behind_master_chunk(word),
        Spot::CountNumber => count_number(word),
        Spot::CrcDue => behind_count(word),
        Spot::CrcText => crc_text(word),
        Spot::ClearTable => clear_table(word),
        Spot::EndDue => end(word),
        Spot::NothingDue => None,
    }
}
