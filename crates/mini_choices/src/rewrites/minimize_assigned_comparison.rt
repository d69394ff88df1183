//! Row 46 of a name that is assigned to in the test: `(x = a) == null ? b : x` becomes
//! `(x = a) ?? b`, and so does `(x = a) != null ? x : b`, where a scope declares x and it can be
//! written. It is lighter in every seat.

ghost use Rattle.std.specs.Prelude.{◌≡◌, is_some, unwrap_or, OnOk, IfOk};
ghost use Rattle.mini_model.specs.Tree.{children, count};
ghost use Rattle.mini_node.specs.Children.{part};
ghost use Rattle.mini_choices.specs.MinimizeAssignedComparison as row;
ghost use Rattle.mini_choices.specs.MinimizeAssignedComparison.{coalesced, written};
ghost use Rattle.mini_choices.specs.MinimizeNormalAssignmentToCombinedLogicalAssignment.{marked};

use crate::assigning::{is_same_name, writes_name};
use crate::rewrites::minimize_conditional_branches::{is_equal, is_unequal};
use mini_context::Scopes;
use mini_model::{LogicalOperator, OutOfMemory};
use mini_node::{Node, discard, is_conditional, is_null, logical, taken, three, two};
use std::alloc::Global;

// Whether a comparison is of an assignment of this name, which can be written, with null.
fn is_assigned_beside_null(comparison: &Node, name: &Node, scopes: &Scopes) -> bool
    requires { count (children comparison.now) ≡ 2 }
    ensures { result ≡ row.is_assigned_beside_null (marked scopes.now) comparison.now name.now }
{
    is_null(comparison.child(1))
        && writes_name(comparison.child(0), scopes)
        && is_same_name(comparison.child(0).child(0), name)
}

// `(x = a) == null ? b : x`
fn is_assigned_if_equal(node: &Node, scopes: &Scopes) -> bool
    ensures { result ≡ row.is_assigned_if_equal (marked scopes.now) node.now }
{
    is_conditional(node)
        && is_equal(node.child(0))
        && is_assigned_beside_null(node.child(0), node.child(2), scopes)
}

// `(x = a) != null ? x : b`
fn is_assigned_if_unequal(node: &Node, scopes: &Scopes) -> bool
    ensures { result ≡ row.is_assigned_if_unequal (marked scopes.now) node.now }
{
    is_conditional(node)
        && is_unequal(node.child(0))
        && is_assigned_beside_null(node.child(0), node.child(1), scopes)
}

// `(x = a) ?? b` of `(x = a) == null ? b : x`
fn with_consequent(alloc: Global, node: Node) -> Result<Node, OutOfMemory>
    ensures { IfOk result (λ w. w ≡ coalesced node (part node 1)) }
{
    let (test, consequent, alternate) = three(node);
    discard(alternate);
    let (assigned, null) = two(test);
    discard(null);
    logical(alloc, LogicalOperator::Coalesce, assigned, consequent)
}

// `(x = a) ?? b` of `(x = a) != null ? x : b`
fn with_alternate(alloc: Global, node: Node) -> Result<Node, OutOfMemory>
    ensures { IfOk result (λ w. w ≡ coalesced node (part node 2)) }
{
    let (test, consequent, alternate) = three(node);
    discard(consequent);
    let (assigned, null) = two(test);
    discard(null);
    logical(alloc, LogicalOperator::Coalesce, assigned, alternate)
}

/// `(x = a) == null ? b : x` becomes `(x = a) ?? b`, and so does `(x = a) != null ? x : b`, where
/// the program mentions x as a name that can be written. The answer says whether it did; the only
/// error is that memory runs out, and then the expression is fit only to be dropped.
pub fn minimize_assigned_comparison(
    alloc: Global,
    node: &mut Node,
    scopes: &Scopes,
) -> Result<bool, OutOfMemory>
    ensures tree { OnOk result (node.new ≡ unwrap_or (written (marked scopes.now) node.old) node.old) }
    ensures said { IfOk result (λ changed. changed ≡ is_some (written (marked scopes.now) node.old)) }
{
    let made = if is_assigned_if_equal(node, scopes) {
        with_consequent(alloc, taken(alloc, node))?
    } else if is_assigned_if_unequal(node, scopes) {
        with_alternate(alloc, taken(alloc, node))?
    } else {
        return Ok(false);
    };
    *node = made;
    Ok(true)
}
