ghost use Rattle.mini_laws.specs.NameMoves.{DropName, SwapBranches, DropLet, MoveOut, MoveIn, OfParts, ToParts, Join, Split};

/// A scope may lose a name whose symbol stands nowhere in a tree: each name of the tree keeps its
/// symbol.
pub fn drop_name()
    ensures { DropName }
{}

/// `!a ? b : c` becomes `a ? c : b`, and each name keeps its symbol.
pub fn swap_branches()
    ensures { SwapBranches }
{}

/// A block loses its first statement `let x;`, where only that declares x and nothing else mentions
/// it, and each name keeps its symbol.
pub fn drop_let()
    ensures { DropLet }
{}

/// A tree moves out of scopes that declare no name of it, and each of its names keeps its symbol.
pub fn move_out()
    ensures { MoveOut }
{}

/// A tree moves into scopes that declare no name of it, and each of its names keeps its symbol.
pub fn move_in()
    ensures { MoveIn }
{}

/// In a node that opens no scope each name has the symbol that the scopes around give it, where
/// that is so of the node's own names and of its children.
pub fn of_parts()
    ensures { OfParts }
{}

/// In a node that opens no scope each name of a child has the symbol that the scopes around the
/// node give it, where that is so of the node.
pub fn to_parts()
    ensures { ToParts }
{}

/// Two lists whose names have the symbols that the scopes around give them make one such list,
/// joined.
pub fn join()
    ensures { Join }
{}

/// A list whose names have the symbols that the scopes around give them makes two such lists,
/// split.
pub fn split()
    ensures { Split }
{}
