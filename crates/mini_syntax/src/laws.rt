//! What the rewrites make, and the rows.

ghost use Rattle.mini_syntax.specs.Spelled.{WrittenIsRow, UnwrittenRests, RestsSettle};
ghost use Rattle.mini_syntax.specs.SubstituteObjectProperty.{WrittenIsReached, UnwrittenRests as KeysRest};
ghost use Rattle.mini_syntax.specs.SubstitutePropertyKey.{WrittenIsRow as KeyIsRow, UnwrittenRests as HeldKeysRest};
ghost use Rattle.mini_syntax.specs.SubstituteReturnStatement.{WrittenIsRow as ReturnIsRow, UnwrittenRests as OtherRests, GivesContracts};

/// What the rewrites of spellings write is what a row says; where they write nothing no row reads
/// the expression, and nothing is to be rewritten.
pub fn spellings_are_rows()
    ensures written { WrittenIsRow }
    ensures unwritten { UnwrittenRests }
    ensures settled { RestsSettle }
{}

/// What the rewrite of `return` writes is what its row says; where it writes nothing the row
/// doesn't read the statement; and what its rule makes is what a row of branches contracts.
pub fn returns_are_rows()
    ensures written { ReturnIsRow }
    ensures unwritten { OtherRests }
    ensures contracts { GivesContracts }
{}

/// What the rewrite of keys writes is reached by steps of the rows on keys; where it writes nothing
/// the literal is as it was, and no row on a key reads it.
pub fn keys_are_rows()
    ensures written { WrittenIsReached }
    ensures unwritten { KeysRest }
{}

/// What the rewrite of keys of patterns and classes writes is what its row says; where it writes
/// nothing the node is as it was, and the row doesn't read it.
pub fn property_keys_are_rows()
    ensures written { KeyIsRow }
    ensures unwritten { HeldKeysRest }
{}
