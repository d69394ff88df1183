//! The rows of declarations.

ghost use Rattle.mini_laws.specs.Rewritten.{MeansSame};
ghost use Rattle.mini_laws.specs.Weights.{Lightens};
ghost use Rattle.mini_kept.specs.Lawful.{Lawful};
ghost use Rattle.mini_rows.specs.Declarations.{DeclarationContracts, DeclarationsLighter};

/// What each row of declarations writes means the same in every demand that fits its place, and is
/// read alike.
pub fn declarations_same()
    ensures { MeansSame DeclarationContracts }
{}

/// What each row of declarations writes is lighter wherever the node stands, so no weight is asked
/// before it is applied, and it makes the whole lighter.
pub fn declarations_lighten()
    ensures lighter { DeclarationsLighter }
    ensures anywhere { Lightens DeclarationContracts }
{}

/// What each row of declarations writes keeps all that a program has to keep.
pub fn declarations_are_lawful()
    ensures { Lawful DeclarationContracts }
{}
