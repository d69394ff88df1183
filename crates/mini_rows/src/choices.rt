//! The rows of conditionals, logical expressions and assignments.

ghost use Rattle.mini_laws.specs.Rewritten.{MeansSame};
ghost use Rattle.mini_laws.specs.Weights.{Lightens};
ghost use Rattle.mini_rows.specs.Choices.{ChoiceContracts, ChoicesLighter, CallsLighter, IndexedLighter, ChoicesLawful, ChoicesLoose};

/// What a row of choices writes means the same wherever the expression stands, and a parent reads
/// it alike.
pub fn choices_mean_the_same()
    ensures { MeansSame ChoiceContracts }
{}

/// What a row of choices writes is lighter in every seat, but for those of a name that is its own
/// branch and of a branch that stands in two places, which may get parentheses; and a step by a row
/// where it is lighter makes the whole lighter.
pub fn choices_are_lighter()
    ensures row { ChoicesLighter }
    ensures called { CallsLighter }
    ensures indexed { IndexedLighter }
    ensures step { Lightens ChoiceContracts }
{}

/// What a row of choices writes keeps all that a program has to keep, where what a write of each
/// variable does stays; and so, but for names that are declared in what goes, where such names may
/// go.
pub fn choices_are_lawful()
    ensures lawful { ChoicesLawful }
    ensures loosely { ChoicesLoose }
{}
