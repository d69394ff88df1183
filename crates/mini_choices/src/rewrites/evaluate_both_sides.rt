//! Rows 13 and 15 of a left side that does something: `(x = []) && b` becomes `x = [], b`, where
//! that is lighter.

ghost use Rattle.std.specs.Prelude.{◌≡◌, is_some, unwrap_or, OnOk, IfOk};
ghost use Rattle.mini_choices.specs.EvaluateBothSides.{both_sides as both_sides_of, evaluates_both as evaluates_its_both, written};

use crate::rewrites::minimize_held_branches::pair;
use crate::weights::pair_weight;
use mini_model::{OutOfMemory, Seat};
use mini_node::{Node, logical_operator, taken, two};
use mini_terms::goes_on;
use mini_tree::expr_weight;
use std::alloc::Global;

// `a && b` whose right side is always evaluated, where `a, b` is lighter
fn evaluates_both(node: &Node, seat: Seat) -> bool
    ensures { result ≡ evaluates_its_both seat node.now }
{
    match logical_operator(node) {
        Some(operator) => {
            goes_on(operator, node.child(0))
                && pair_weight(node.child(0), node.child(1), seat) < expr_weight(node, seat)
        }
        None => false,
    }
}

// `a, b` of `a && b`
fn both_sides(alloc: Global, node: Node) -> Result<Node, OutOfMemory>
    ensures { IfOk result (λ w. w ≡ both_sides_of node) }
{
    let (left, right) = two(node);
    pair(alloc, left, right)
}

/// A logical expression whose left side is known to let the right one be evaluated becomes both in
/// order, where that is lighter: `(x = []) && b` becomes `x = [], b`, `void f() || b` becomes
/// `void f(), b`, and `void f() ?? b` the same. The answer says whether it did; the only error is
/// that memory runs out, and then the expression is fit only to be dropped.
pub fn evaluate_both_sides(alloc: Global, node: &mut Node, seat: Seat) -> Result<bool, OutOfMemory>
    ensures tree { OnOk result (node.new ≡ unwrap_or (written seat node.old) node.old) }
    ensures said { IfOk result (λ changed. changed ≡ is_some (written seat node.old)) }
{
    if !evaluates_both(node, seat) {
        return Ok(false);
    }
    *node = both_sides(alloc, taken(alloc, node))?;
    Ok(true)
}
