//! Laws of counts. Each is the contract of a function that does nothing.

ghost use Rattle.mini_context.specs.Steady.{BodiesTold, SteadyTells};
ghost use Rattle.mini_context.specs.Laws.{CountsTell, DeclaratorsTell, ForeignTells, NamesTell, RefreshTells, SharesTell, TablesTell, UsesTell};

/// The counts by symbol of a tree are how often each symbol is read, and how often it is written.
pub fn counts_tell()
    ensures { CountsTell }
{}

/// Whether a name that has a symbol is among others is a matter of the symbol alone.
pub fn names_tell()
    ensures { NamesTell }
{}

/// Whether a body shares a name that has a symbol is a matter of the symbol alone.
pub fn shares_tell()
    ensures { SharesTell }
{}

/// The tables of a program tell what a body shares.
pub fn tables_tell()
    ensures { TablesTell }
{}

/// The tables of a program tell what is foreign to a body.
pub fn foreign_tells()
    ensures { ForeignTells }
{}

/// The tables of a program tell what is steady in a body.
pub fn steady_tells()
    ensures { SteadyTells }
{}

/// The tables of a program tell all that is told of bodies.
pub fn bodies_told()
    ensures { BodiesTold }
{}

/// After a refresh the tables tell what is foreign to a body, and what is steady in it, of the
/// program that was looked at.
pub fn refresh_tells()
    ensures { RefreshTells }
{}

/// A tree whose names are used in one of two ways that are counted alike has the same counts in
/// both.
pub fn uses_tell()
    ensures { UsesTell }
{}

/// A declarator of `var` that is dropped is counted out as one that is read.
pub fn declarators_tell()
    ensures { DeclaratorsTell }
{}
