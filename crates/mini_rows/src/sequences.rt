//! The rows on sequences.

ghost use Rattle.mini_kept.specs.Lawful.{Lawful};
ghost use Rattle.mini_laws.specs.Rewritten.{MeansSame};
ghost use Rattle.mini_laws.specs.Weights.{Lightens};
ghost use Rattle.mini_rows.specs.Sequences.{SequenceContracts, SequencesLighter};

/// What a row on sequences writes means the same wherever the expression stands, and a parent reads
/// it alike.
pub fn sequences_mean_the_same()
    ensures { MeansSame SequenceContracts }
{}

/// What a row on sequences writes is lighter in every place, and so a step by it makes the whole
/// lighter.
pub fn sequences_are_lighter()
    ensures row { SequencesLighter }
    ensures step { Lightens SequenceContracts }
{}

/// What a row on sequences writes keeps all that a program has to keep.
pub fn sequences_are_lawful()
    ensures { Lawful SequenceContracts }
{}
