//! The row of the names of function and class expressions.

ghost use Rattle.mini_rows.specs.Names.{NamesAreLawful, NamesLighten, NamesLighter};

/// A function or class expression that loses its name keeps all that a program has to keep, but a
/// name that nothing mentions.
pub fn names_are_lawful()
    ensures { NamesAreLawful }
{}

/// A function or class expression that loses its name gets lighter wherever it stands, so no weight
/// is asked before that, and it makes the whole lighter.
pub fn names_lighten()
    ensures lighter { NamesLighter }
    ensures anywhere { NamesLighten }
{}
