//! The rows on what is known of an expression from its text.

ghost use Rattle.mini_laws.specs.Rewritten.{MeansSame};
ghost use Rattle.mini_laws.specs.Weights.{Lightens};
ghost use Rattle.mini_rows.specs.Folding.{FoldingContracts, FoldingsLighter, FoldingsLawful, FoldingsLoose};

/// What a row on what is known writes means the same wherever the node stands, and a parent reads
/// it alike.
pub fn foldings_mean_the_same()
    ensures { MeansSame FoldingContracts }
{}

/// What a row on what is known writes is lighter in every place, and so a step by it makes the
/// whole lighter.
pub fn foldings_are_lighter()
    ensures row { FoldingsLighter }
    ensures step { Lightens FoldingContracts }
{}

/// What a row on what is known writes keeps all that a program has to keep, where what a write of
/// each variable does stays; and so, but for names that are declared in what goes, where such names
/// may go.
pub fn foldings_are_lawful()
    ensures lawful { FoldingsLawful }
    ensures loosely { FoldingsLoose }
{}
