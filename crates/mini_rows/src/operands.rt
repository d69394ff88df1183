//! The rows on operands whose value is known.

ghost use Rattle.mini_kept.specs.Lawful.{Lawful};
ghost use Rattle.mini_laws.specs.Rewritten.{MeansSame};
ghost use Rattle.mini_laws.specs.Weights.{Lightens};
ghost use Rattle.mini_rows.specs.Operands.{OperandContracts, OperandsLighter};

/// What a row on operands writes means the same wherever the expression stands, and a parent reads
/// it alike.
pub fn operands_mean_the_same()
    ensures { MeansSame OperandContracts }
{}

/// What a row on operands writes is lighter in every place, and so a step by it makes the whole
/// lighter.
pub fn operands_are_lighter()
    ensures row { OperandsLighter }
    ensures step { Lightens OperandContracts }
{}

/// What a row on operands writes keeps all that a program has to keep.
pub fn operands_are_lawful()
    ensures { Lawful OperandContracts }
{}
