//! The rows of expressions of which only the truth is asked, and of conditionals one of whose
//! branches is a boolean.

ghost use Rattle.mini_kept.specs.Lawful.{Lawful};
ghost use Rattle.mini_laws.specs.Rewritten.{MeansSame};
ghost use Rattle.mini_laws.specs.Weights.{Lightens};
ghost use Rattle.mini_rows.specs.Booleans.{BooleanContracts, BooleansLighter};

/// What a row of booleans writes means the same wherever the node stands, and a parent reads it
/// alike.
pub fn booleans_mean_the_same()
    ensures { MeansSame BooleanContracts }
{}

/// What a row of booleans writes is lighter in every seat, for the rows that say so; and a step by
/// such a row makes the whole lighter.
pub fn booleans_are_lighter()
    ensures row { BooleansLighter }
    ensures step { Lightens BooleanContracts }
{}

/// What a row of booleans writes keeps all that a program has to keep.
pub fn booleans_are_lawful()
    ensures { Lawful BooleanContracts }
{}
