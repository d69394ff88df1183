//! The row of arrow functions.

ghost use Rattle.mini_laws.specs.Rewritten.{MeansSame};
ghost use Rattle.mini_laws.specs.Weights.{Lightens};
ghost use Rattle.mini_kept.specs.Lawful.{Lawful};
ghost use Rattle.mini_rows.specs.Arrows.{ArrowContracts, ArrowsLighter};

/// What the row of arrow functions writes means the same in every demand that fits its place, and
/// is read alike.
pub fn arrows_mean_the_same()
    ensures { MeansSame ArrowContracts }
{}

/// What the row of arrow functions writes is lighter in every seat, and makes the whole lighter.
pub fn arrows_are_lighter()
    ensures row { ArrowsLighter }
    ensures step { Lightens ArrowContracts }
{}

/// What the row of arrow functions writes keeps all that a program has to keep; the function's body
/// runs as before.
pub fn arrows_are_lawful()
    ensures { Lawful ArrowContracts }
{}
