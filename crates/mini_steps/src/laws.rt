//! What lists of steps come to, and what they keep.

ghost use Rattle.mini_laws.specs.Value.{VariableSet};
ghost use Rattle.mini_rows.specs.Switches.{Switches};
ghost use Rattle.mini_steps.specs.declared.names.RuleName.{RuleName};
ghost use Rattle.mini_steps.specs.Laws.{StepsAreRewrites, StepsKeep, StepsTold};
ghost use Rattle.mini_steps.specs.Rows.{CallRows};

/// A step is one call at the node to which its path leads, and all else stays; where it leads
/// nowhere, nothing changes.
pub fn steps_are_told()
    ensures { (o : Switches) (W : VariableSet) (r : RuleName) → StepsTold (CallRows o W r) }
{}

/// Any list of steps is rewrites, one after another, and keeps all that a program has to keep.
pub fn steps_keep()
    ensures rewrites { StepsAreRewrites }
    ensures keeps { StepsKeep }
{}
