//! The rows of lists of statements.

ghost use Rattle.mini_rows.specs.Lists.{ListsLighter};
ghost use Rattle.mini_rows.specs.ListLaws.{ListsMeanSame, ListsLighten, ListsLawful, ListsLoose, TerminatedNeverEnds};

/// What a row of lists writes is lighter in every list, so that no weight is asked before it is
/// applied.
pub fn lists_are_lighter()
    ensures { ListsLighter }
{}

/// What a row of lists writes means the same, and at any place in a tree makes the whole lighter.
pub fn lists_are_same()
    ensures means { ListsMeanSame }
    ensures lightens { ListsLighten }
{}

/// What a row of lists writes keeps all that a program has to keep, where what a write of each
/// variable does stays; and else all but what is said of constants that are declared in what goes.
pub fn lists_are_lawful()
    ensures lawful { ListsLawful }
    ensures loosely { ListsLoose }
{}

/// No run of a statement that is terminated ends normally, nor one of a list of them.
pub fn terminated_never_ends()
    ensures { TerminatedNeverEnds }
{}
