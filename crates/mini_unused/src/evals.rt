//! Whether a direct eval stands in a tree: it sees each name in whose scope it stands.

ghost use Rattle.std.specs.Prelude.{◌≡◌, ◌||◌};
ghost use Rattle.mini_node.specs.Children.{names, rest_children, trees_of};
ghost use Rattle.mini_laws.specs.ScopeList as scopes;

use mini_model::{Name, Shape};
use mini_node::{Node, Nodes};

/// The units of `eval`.
const EVAL: [u16; 4] = [101, 118, 97, 108];

/// The spelling of a direct eval's name.
pub fn is_eval_name(name: &Option<Name>) -> bool
    ensures { result ≡ scopes.is_eval (names name.now) }
{
    match name {
        Some(name) => name.spelling.as_slice() == EVAL.as_slice(),
        None => false,
    }
}

/// The name of a direct eval, where it is called.
pub fn is_eval_callee(node: &Node) -> bool
    ensures { result ≡ scopes.is_eval_callee node.now }
{
    matches!(node.shape(), Shape::Identifier) && is_eval_name(node.name())
}

fn calls_eval(nodes: &[Node]) -> bool
    ensures { result ≡ scopes.calls_eval (trees_of nodes.now) }
{
    match nodes {
        [callee, ..] => is_eval_callee(callee),
        [] => false,
    }
}

fn is_eval_call(shape: &Shape, nodes: &[Node]) -> bool
    ensures { result ≡ scopes.is_eval_call shape.now (trees_of nodes.now) }
{
    match shape {
        Shape::CallExpression(false) => calls_eval(nodes),
        _ => false,
    }
}

/// Whether a direct eval stands in a tree.
#[cycle(evals)]
pub fn has_eval(node: &Node) -> bool
    ensures { result ≡ scopes.has_eval node.now }
{
    is_eval_call(node.shape(), node.parts()) || any_has_eval(node.children(), 0)
}

/// Whether a direct eval stands in one of these nodes, from an index on.
#[cycle(evals)]
pub fn any_has_eval(nodes: &Nodes, from: usize) -> bool
    ensures { result ≡ scopes.any_has_eval (rest_children from nodes.now) }
{
    for at in from..nodes.len() {
        if has_eval(nodes.child(at)) {
            return true;
        }
    }
    false
}

/// Whether a direct eval stands in one of two trees.
pub fn either_has_eval(left: &Node, right: &Node) -> bool
    ensures { result ≡ (scopes.has_eval left.now || scopes.has_eval right.now) }
{
    has_eval(left) || has_eval(right)
}
