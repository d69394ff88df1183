//! The rows of names that can be written.

ghost use Rattle.mini_rows.specs.Writes.{WritesAreLawful, WritesLighten, WritesLighter};

/// What each row of a name that can be written writes keeps all that a program has to keep: it
/// means the same in any environment in which the variables can be written for which it acts.
pub fn writes_are_lawful()
    ensures { WritesAreLawful }
{}

/// What each row of a name that can be written writes is lighter wherever the expression stands, so
/// no weight is asked before it is applied, and it makes the whole lighter.
pub fn writes_lighten()
    ensures lighter { WritesLighter }
    ensures anywhere { WritesLighten }
{}
