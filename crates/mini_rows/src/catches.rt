//! The row of what a `catch` catches.

ghost use Rattle.mini_laws.specs.Weights.{Lightens};
ghost use Rattle.mini_rows.specs.Catches.{CatchContracts, CatchesAreLawful, CatchesLighter};

/// A handler that loses the name of what it catches keeps all that a program has to keep, but a
/// name that nothing mentions.
pub fn catches_are_lawful()
    ensures { CatchesAreLawful }
{}

/// A handler that loses the name of what it catches gets lighter wherever it stands, so no weight
/// is asked before that, and it makes the whole lighter.
pub fn catches_lighten()
    ensures lighter { CatchesLighter }
    ensures anywhere { Lightens CatchContracts }
{}
