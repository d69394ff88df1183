//! The row of a `let` and the assignment of a value after it.

ghost use Rattle.mini_rows.specs.Lets.{LetsAreLawful, LetsLighten, LetsLighter};

/// What the row of a `let` and the assignment after it writes keeps all that a program has to keep:
/// it means the same in any environment in which the variables can be written for which it acts.
pub fn lets_are_lawful()
    ensures { LetsAreLawful }
{}

/// What the row of a `let` and the assignment after it writes is lighter in every list, so no
/// weight is asked before it is applied, and it makes the whole lighter.
pub fn lets_lighten()
    ensures lighter { LetsLighter }
    ensures anywhere { LetsLighten }
{}
