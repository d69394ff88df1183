//! Row 22 of the head of a `for`: `for (0; a; b) c` becomes `for (; a; b) c`, and `for (; a; i) c`
//! becomes `for (; a;) c`. What is written is lighter in every place.

ghost use Rattle.std.specs.Prelude.{◌≡◌, ◌<◌, true, is_some, unwrap_or};
ghost use Rattle.mini_model.specs.Tree.{children, count};
ghost use Rattle.mini_rows.specs.ForParts.{is_idle as is_it_idle};
ghost use Rattle.mini_fold.specs.RemoveIdleHead as row;

use mini_model::Shape;
use mini_node::{Node, discard, taken};
use mini_terms::{has_no_effect, is_plain_part, leaves_nothing, weighs};
use std::alloc::Global;

// Whether nobody misses it where its value is asked by nobody.
fn is_idle(node: &Node) -> bool
    ensures { result ≡ is_it_idle node.now }
{
    has_no_effect(node) && leaves_nothing(node) && weighs(node) && is_plain_part(node)
}

// `for (0; a; b) c`
fn begins_idly(node: &Node) -> bool
    ensures kind { result ≡ row.begins_idly node.now }
    ensures parts { result ≡ true → count (children node.now) ≡ 4 }
{
    matches!(node.shape(), Shape::ForStatement) && node.is_bare(4) && is_idle(node.child(0))
}

// `for (; a; i) c`
fn turns_idly(node: &Node) -> bool
    ensures kind { result ≡ row.turns_idly node.now }
    ensures parts { result ≡ true → count (children node.now) ≡ 4 }
{
    matches!(node.shape(), Shape::ForStatement) && node.is_bare(4) && is_idle(node.child(2))
}

/// Whether the node is a `for` a part of whose head goes.
pub fn has_idle_head(node: &Node) -> bool
    ensures { result ≡ row.has_idle_head node.now }
{
    begins_idly(node) || turns_idly(node)
}

// Without the part at a place.
fn without(node: Node, at: usize) -> Node
    requires { at < count (children node) }
    ensures { result ≡ row.without at node }
{
    let mut children = node.into_children();
    discard(children.take(at));
    Node::new(Shape::ForStatement, children)
}

/// A part of the head of a `for` whose value nobody asks for goes, where it does nothing: what the
/// loop begins with, or what it does after each turn (ECMA-262, "The for Statement"). The answer
/// says whether one did.
pub fn remove_idle_head(alloc: Global, node: &mut Node) -> bool
    ensures tree { node.new ≡ unwrap_or (row.written node.old) node.old }
    ensures said { result ≡ is_some (row.written node.old) }
{
    if begins_idly(node) {
        *node = without(taken(alloc, node), 0);
        return true;
    }
    if turns_idly(node) {
        *node = without(taken(alloc, node), 2);
        return true;
    }
    false
}
