//! The row of negations that reach into the operand.

ghost use Rattle.mini_kept.specs.Lawful.{Lawful};
ghost use Rattle.mini_laws.specs.Rewritten.{MeansSame};
ghost use Rattle.mini_laws.specs.Weights.{Lightens};
ghost use Rattle.mini_rows.specs.Negations.{NegationContracts, WholeSame};

/// What the row of negations writes means the same wherever the expression stands, and a parent
/// reads it alike; and the whole negation of any expression means what `!` over it does, in every
/// seat.
pub fn negations_mean_the_same()
    ensures rows { MeansSame NegationContracts }
    ensures whole { WholeSame }
{}

/// A step by the row of negations makes the whole lighter.
pub fn negations_lighten()
    ensures { Lightens NegationContracts }
{}

/// What the row of negations writes keeps all that a program has to keep.
pub fn negations_are_lawful()
    ensures { Lawful NegationContracts }
{}
