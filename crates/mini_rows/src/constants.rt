//! The rows on expressions whose value is calculated from their text.

ghost use Rattle.mini_kept.specs.Lawful.{Lawful};
ghost use Rattle.mini_laws.specs.Rewritten.{MeansSame};
ghost use Rattle.mini_laws.specs.Weights.{Lightens};
ghost use Rattle.mini_rows.specs.Constants.{ConstantContracts};

/// What a row on a constant writes means the same wherever the expression stands, and a parent
/// reads it alike.
pub fn constants_mean_the_same()
    ensures { MeansSame ConstantContracts }
{}

/// A step by a row on a constant makes the whole lighter, where what it writes is lighter in its
/// place.
pub fn constants_lighten()
    ensures { Lightens ConstantContracts }
{}

/// What a row on a constant writes keeps all that a program has to keep.
pub fn constants_are_lawful()
    ensures { Lawful ConstantContracts }
{}
