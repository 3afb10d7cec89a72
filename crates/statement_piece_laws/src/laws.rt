ghost use Rattle.statement_piece_laws.specs.Pieces.{AddsPiece, AddsToken, AddsTree, HasOpenTree, KeepsBare, KeepsBareTree, KeepsFaults, KeepsTreeFaults};
ghost use Rattle.statement_piece_laws.specs.Names.{StaysBehind, NamesTable, NamesNone};

/// Pieces add to what is known of a statement, and to its faults, one after the other; and neither what a token
/// adds nor any fault rests on the expressions and the condition before it.
pub fn one_piece_more()
    ensures drafts { AddsPiece }
    ensures tokens { AddsToken }
    ensures trees { AddsTree }
    ensures open_trees { HasOpenTree }
    ensures bare { KeepsBare }
    ensures bare_trees { KeepsBareTree }
    ensures faults { KeepsFaults }
    ensures tree_faults { KeepsTreeFaults }
{}

/// The first name in a statement is its table's, and no table is named behind it.
pub fn names_of_tables()
    ensures none { NamesNone }
    ensures table { NamesTable }
    ensures behind { StaysBehind }
{}
