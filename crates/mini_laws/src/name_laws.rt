ghost use Rattle.mini_laws.specs.Counts.{DropsTell};
ghost use Rattle.mini_laws.specs.Laws.{ResolvedIsScoped, ResolvedOfBare, ResolvedRenamed, ResolvedSymbols, ResolvedIsDistinct};

/// Each name of a resolved tree has the symbol that the scopes around give it.
pub fn resolved_is_scoped()
    ensures { ResolvedIsScoped }
{}

/// Resolution looks at a program's text alone: the symbols and numbers that it had before don't
/// matter.
pub fn resolved_of_bare()
    ensures { ResolvedOfBare }
{}

/// A scoped tree is its text resolved, up to the numbers of its symbols.
pub fn resolved_renamed()
    ensures { ResolvedRenamed }
{}

/// The symbols of a resolved program are numbered as they are declared.
pub fn resolved_symbols()
    ensures { ResolvedSymbols }
{}

/// Each symbol of a resolved program is declared once.
pub fn resolved_is_distinct()
    ensures { ResolvedIsDistinct }
{}

/// Counts that fell by the references of a part are those of the references that are left.
pub fn drops_tell()
    ensures { DropsTell }
{}
