//! The row of a guard in the body of a loop that goes on with the next turn.

ghost use Rattle.mini_kept.specs.Lawful.{Lawful};
ghost use Rattle.mini_laws.specs.Rewritten.{MeansSame};
ghost use Rattle.mini_laws.specs.Weights.{Lightens};
ghost use Rattle.mini_rows.specs.Switches.{Switches};
ghost use Rattle.mini_rows.specs.LoopGuards.{LoopGuardContracts, LoopGuardsLighter};

/// What the row of a guard in a loop writes means the same wherever the loop stands, and a parent
/// reads it alike.
pub fn loop_guards_mean_the_same()
    ensures { (o : Switches) → MeansSame (LoopGuardContracts o) }
{}

/// What the row of a guard in a loop writes is lighter wherever the loop stands, so no weight is
/// asked before it is applied, and it makes the whole lighter.
pub fn loop_guards_lighten()
    ensures lighter { LoopGuardsLighter }
    ensures anywhere { (o : Switches) → Lightens (LoopGuardContracts o) }
{}

/// What the row of a guard in a loop writes keeps all that a program has to keep.
pub fn loop_guards_are_lawful()
    ensures { (o : Switches) → Lawful (LoopGuardContracts o) }
{}
