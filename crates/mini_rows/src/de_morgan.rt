//! The rows of De Morgan's laws: of expression statements, whose values nobody uses.

ghost use Rattle.mini_kept.specs.Lawful.{Lawful};
ghost use Rattle.mini_laws.specs.Rewritten.{MeansSame};
ghost use Rattle.mini_laws.specs.Weights.{Lightens};
ghost use Rattle.mini_rows.specs.DeMorgan.{DeMorganContracts};

/// What a row of De Morgan's laws writes means the same wherever the statement stands, and a parent
/// reads it alike.
pub fn de_morgan_means_the_same()
    ensures { MeansSame DeMorganContracts }
{}

/// A step by a row of De Morgan's laws makes the whole lighter.
pub fn de_morgan_lightens()
    ensures { Lightens DeMorganContracts }
{}

/// What a row of De Morgan's laws writes keeps all that a program has to keep.
pub fn de_morgan_is_lawful()
    ensures { Lawful DeMorganContracts }
{}
