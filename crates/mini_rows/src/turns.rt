//! The rows that turn a test and swap what it chooses between.

ghost use Rattle.mini_laws.specs.Rewritten.{MeansSame};
ghost use Rattle.mini_laws.specs.Weights.{Lightens};
ghost use Rattle.mini_kept.specs.Lawful.{Lawful};
ghost use Rattle.mini_rows.specs.Turns.{TurnContracts, TurnsLighter};

/// What each row that turns a test writes means the same in every demand that fits its place, and
/// is read alike.
pub fn turns_mean_the_same()
    ensures { MeansSame TurnContracts }
{}

/// What each row that turns a test writes is lighter wherever the node stands, and makes the whole
/// lighter.
pub fn turns_are_lighter()
    ensures row { TurnsLighter }
    ensures step { Lightens TurnContracts }
{}

/// What each row that turns a test writes keeps all that a program has to keep.
pub fn turns_are_lawful()
    ensures { Lawful TurnContracts }
{}
