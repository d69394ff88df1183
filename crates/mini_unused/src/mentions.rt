//! Whether a name stands in a tree.

ghost use Rattle.std.specs.Prelude.{◌≡◌, ◌≤◌, length, true};
ghost use Rattle.mini_model.specs.Tree.{count};
ghost use Rattle.mini_model.specs.Weight.{same_text};
ghost use Rattle.mini_laws.specs.Symbols.{is_same};
ghost use Rattle.mini_node.specs.Children.{first_children, names as names_in, rest_children};
ghost use Rattle.mini_rows.specs.Unused.{any_names, is_like_one, names};

use mini_model::{Name, SymbolId, Text};
use mini_node::{Node, Nodes};

// Two texts are equally long and end alike, so that most that differ are told apart at once.
fn ends_alike(left: &[u16], right: &[u16]) -> bool
    ensures lengths { result ≡ true → length left.now ≡ length right.now }
    ensures same { left.now ≡ right.now → result ≡ true }
{
    if left.len() != right.len() {
        return false;
    }
    left.len() == 0 || left[left.len() - 1] == right[right.len() - 1]
}

/// Whether the two texts are equal, unit by unit.
pub fn is_same_text(left: &Text, right: &Text) -> bool
    ensures { result ≡ same_text left.now right.now }
{
    let left = left.as_slice();
    let right = right.as_slice();
    if !ends_alike(left, right) {
        return false;
    }
    left == right
}

/// Whether the two symbols are equal, or both are absent.
pub fn is_same_symbol(left: Option<SymbolId>, right: Option<SymbolId>) -> bool
    ensures { result ≡ is_same left right }
{
    match (left, right) {
        (None, None) => true,
        (Some(one), Some(other)) => one.0 == other.0,
        _ => false,
    }
}

/// Whether the other has the spelling of the name, or its symbol.
#[tactic(auto, using(crate::proofs::Standing::or_none))]
pub fn is_like(name: &Name, other: &Option<Name>) -> bool
    ensures { result ≡ is_like_one name.now (names_in other.now) }
{
    match other {
        Some(other) => {
            is_same_text(&name.spelling, &other.spelling)
                || is_same_symbol(name.symbol, other.symbol)
        }
        None => false,
    }
}

/// Whether a name that has the spelling of this one, or its symbol, stands in a tree.
#[cycle(mentions)]
pub fn is_mentioned(name: &Name, node: &Node) -> bool
    ensures { result ≡ names name.now node.now }
{
    is_like(name, node.name()) || is_mentioned_from(name, node.children(), 0)
}

/// Whether a name that has the spelling of this one, or its symbol, stands in one of these nodes,
/// from an index on.
#[cycle(mentions)]
pub fn is_mentioned_from(name: &Name, nodes: &Nodes, from: usize) -> bool
    ensures { result ≡ any_names name.now (rest_children from nodes.now) }
{
    for at in from..nodes.len() {
        if is_mentioned(name, nodes.child(at)) {
            return true;
        }
    }
    false
}

// It stands in the last part of a node.
fn is_mentioned_last(name: &Name, node: &Node) -> bool
    ensures { result ≡ true → names name.now node.now ≡ true }
{
    let count = node.children().len();
    if count == 0 {
        return false;
    }
    is_mentioned(name, node.child(count - 1))
}

/// Whether a name that has the spelling of this one, or its symbol, stands in what is outside of
/// some statements, of which the last part is looked at first: of the nodes above a list that is the
/// nearest one.
pub fn is_mentioned_outside(name: &Name, outside: &Node) -> bool
    ensures { result ≡ names name.now outside.now }
{
    if is_mentioned_last(name, outside) {
        return true;
    }
    is_mentioned(name, outside)
}

/// Whether a name that has the spelling of this one, or its symbol, stands in one of these nodes,
/// before an index.
pub fn is_mentioned_before(name: &Name, nodes: &Nodes, end: usize) -> bool
    requires { end ≤ count nodes.now }
    ensures { result ≡ any_names name.now (first_children end nodes.now) }
{
    for at in 0..end {
        if is_mentioned(name, nodes.child(at)) {
            return true;
        }
    }
    false
}
