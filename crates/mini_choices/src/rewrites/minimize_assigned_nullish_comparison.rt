//! Row 37, of a name that the first test assigns to: `(x = a) === null || x === undefined` becomes
//! `(x = a) == null`, where x can be written. It is lighter in every seat.

ghost use Rattle.std.specs.Prelude.{◌≡◌, is_some, unwrap_or, OnOk, IfOk};
ghost use Rattle.mini_model.specs.Tree.{children, count};
ghost use Rattle.mini_choices.specs.MinimizeAssignedNullishComparison as row;
ghost use Rattle.mini_choices.specs.MinimizeAssignedNullishComparison.{written};
ghost use Rattle.mini_choices.specs.MinimizeNormalAssignmentToCombinedLogicalAssignment.{marked};

use crate::assigning::{is_same_name, writes_name};
use crate::forms::are_nullish;
use crate::rewrites::minimize_nullish_comparison::{after, alone, is_strict, joining, joins};
use mini_context::Scopes;
use mini_model::OutOfMemory;
use mini_node::{Node, is_logical, taken};
use std::alloc::Global;

// Whether they are an assignment to a name, which can be written, and that name.
fn assigns_it(node: &Node, name: &Node, scopes: &Scopes) -> bool
    ensures { result ≡ row.assigns_it (marked scopes.now) node.now name.now }
{
    writes_name(node, scopes) && is_same_name(node.child(0), name)
}

// Whether the first compares such an assignment, and the second the name, with null and with
// undefined.
fn compares(equal: bool, first: &Node, second: &Node, scopes: &Scopes) -> bool
    ensures { result ≡ row.compares (marked scopes.now) equal first.now second.now }
{
    is_strict(equal, first)
        && is_strict(equal, second)
        && assigns_it(first.child(0), second.child(0), scopes)
        && are_nullish(first.child(1), second.child(1))
}

// Whether the second of two behind an equal operator and what follows it do.
fn compares_after(equal: bool, node: &Node, scopes: &Scopes) -> bool
    requires { count (children node.now) ≡ 2 }
    ensures { result ≡ row.compares_after (marked scopes.now) equal node.now }
{
    is_logical(node.child(0), joining(equal))
        && compares(equal, node.child(0).child(1), node.child(1), scopes)
}

/// `(x = a) === null || x === undefined` becomes `(x = a) == null`, and
/// `(x = a) !== null && x !== undefined` becomes `(x = a) != null`, in any order, and after an
/// equal operator to the left, where the program mentions x as a name that can be written. The
/// answer says whether it did; the only error is that memory runs out, and then the expression is
/// fit only to be dropped.
pub fn minimize_assigned_nullish_comparison(
    alloc: Global,
    node: &mut Node,
    scopes: &Scopes,
) -> Result<bool, OutOfMemory>
    ensures tree { OnOk result (node.new ≡ unwrap_or (written (marked scopes.now) node.old) node.old) }
    ensures said { IfOk result (λ changed. changed ≡ is_some (written (marked scopes.now) node.old)) }
{
    let Some(equal) = joins(node) else {
        return Ok(false);
    };
    let made = if compares(equal, node.child(0), node.child(1), scopes) {
        alone(alloc, equal, taken(alloc, node))?
    } else if compares_after(equal, node, scopes) {
        after(alloc, equal, taken(alloc, node))?
    } else {
        return Ok(false);
    };
    *node = made;
    Ok(true)
}
