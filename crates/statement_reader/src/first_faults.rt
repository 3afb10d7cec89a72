ghost use Rattle.std.specs.Prelude.{◌≡◌};
ghost use Rattle.statement_grammar.specs.FirstFault.{comes_before as is_before, earlier as the_earlier, place_of_fault, rank_of as the_rank, row_rank as rank_of_row};

use row_types::RowFault;
use statement_grammar::TextFault;

fn row_rank(fault: RowFault) -> u32
    ensures { result ≡ rank_of_row fault }
{
    match fault {
        RowFault::Arity { .. } => 5,
        RowFault::NullIn { .. } => 6,
        RowFault::Kind { .. } => 7,
        RowFault::OutOfRange { .. } => 8,
        RowFault::TooLong { .. } => 9,
    }
}

fn rank_of(fault: TextFault) -> u32
    ensures { result ≡ the_rank fault }
{
    match fault {
        TextFault::At { .. } => 0,
        TextFault::UnknownTable { .. } => 1,
        TextFault::UnknownColumn { .. } => 2,
        TextFault::KeyAssigned { .. } => 3,
        TextFault::NullIntoNotNull { .. } => 4,
        TextFault::Literal { place: _, fault } => row_rank(fault),
        TextFault::TooDeep { .. } => 10,
        TextFault::Memory => 11,
    }
}

fn place_of(fault: TextFault) -> u32
    ensures { result ≡ place_of_fault fault }
{
    match fault {
        TextFault::At { place }
        | TextFault::UnknownTable { place }
        | TextFault::UnknownColumn { place }
        | TextFault::KeyAssigned { place }
        | TextFault::NullIntoNotNull { place }
        | TextFault::Literal { place, fault: _ }
        | TextFault::TooDeep { place } => place,
        TextFault::Memory => 0,
    }
}

/// Whether the first fault comes before the second: at a lesser place, or at the same place and in the
/// order of faults.
fn comes_before(f: TextFault, h: TextFault) -> bool
    ensures { result ≡ is_before f h }
{
    let (ours, theirs) = (place_of(f), place_of(h));
    let (our_rank, their_rank) = (rank_of(f), rank_of(h));
    ours < theirs || (ours == theirs && our_rank < their_rank)
}

/// The fault that comes first; of those that tie the one that stands first.
pub fn earlier(f: TextFault, held: Option<TextFault>) -> TextFault
    ensures { result ≡ the_earlier f held }
{
    match held {
        None => f,
        Some(h) => {
            if comes_before(h, f) {
                return h;
            }
            f
        }
    }
}
