//! What the rules make, and the rows.

ghost use Rattle.mini_fold.specs.FoldConstants as constants;
ghost use Rattle.mini_fold.specs.FoldKnown.{WrittenIsRow, StatementIsRow, UnwrittenRests, StatementRests};

/// What is written where a part is known is what a row says; where nothing is written no row reads
/// the node.
pub fn folds_are_rows()
    ensures written { WrittenIsRow }
    ensures statement { StatementIsRow }
    ensures unwritten { UnwrittenRests }
    ensures rests { StatementRests }
{}

/// What is written for a constant is what a row says, and lighter; where nothing is written no row
/// makes the expression lighter, as far as its weight fits 64 bits.
pub fn constants_are_rows()
    ensures written { constants.WrittenIsRow }
    ensures unwritten { constants.UnwrittenRests }
{}
