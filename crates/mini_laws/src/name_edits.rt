ghost use Rattle.mini_laws.specs.Edits.{KeptIsDistinct, KeptTwice, KeptAsItIs, KeptBelow, KeptBySwap, KeptByDrop};

/// An edit of a tree that leaves the names that it declares to the scopes around it, and that
/// declares no symbol more often in it, keeps the symbols of its declarations distinct.
pub fn kept_is_distinct()
    ensures { KeptIsDistinct }
{}

/// Two edits one after the other, neither of which declares a symbol more often, are one such edit.
pub fn kept_twice()
    ensures { KeptTwice }
{}

/// To leave a tree as it is, is an edit that declares no symbol more often.
pub fn kept_as_it_is()
    ensures { KeptAsItIs }
{}

/// Edits of the children of a node, none of which declares a symbol more often, are one such edit
/// of the node.
pub fn kept_below()
    ensures { KeptBelow }
{}

/// `!a ? b : c` becomes `a ? c : b` by an edit that declares no symbol more often.
pub fn kept_by_swap()
    ensures { KeptBySwap }
{}

/// A block loses its first statement `let x;`, where only that declares x, by an edit that declares
/// no symbol more often.
pub fn kept_by_drop()
    ensures { KeptByDrop }
{}
