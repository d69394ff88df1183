//! The rows of names that nothing mentions.

ghost use Rattle.mini_rows.specs.Unused.{UnusedAreLawful, UnusedLighten, UnusedLighter};

/// What each row of a name that nothing mentions writes keeps all that a program has to keep, but
/// that name: it means the same where nobody else sees that variable, and those can be written for
/// which it acts.
pub fn unused_are_lawful()
    ensures { UnusedAreLawful }
{}

/// What each row of a name that nothing mentions writes is lighter wherever the block stands, so no
/// weight is asked before it is applied, and it makes the whole lighter.
pub fn unused_lighten()
    ensures lighter { UnusedLighter }
    ensures anywhere { UnusedLighten }
{}
