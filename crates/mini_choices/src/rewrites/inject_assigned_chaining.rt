//! Row 46, of what is read of a name that is assigned to in the test:
//! `(x = a) == null ? void 0 : x.m` becomes `(x = a)?.m`, where x can be written, and
//! `0, (x = a)?.m` as a callee and under `delete`. It is lighter in every seat.

ghost use Rattle.std.specs.Prelude.{◌≡◌, true, is_some, unwrap_or, OnOk, IfOk};
ghost use Rattle.mini_model.specs.Tree.{children, count};
ghost use Rattle.mini_node.specs.Children.{part};
ghost use Rattle.mini_choices.specs.InjectAssignedChaining as row;
ghost use Rattle.mini_choices.specs.InjectAssignedChaining.{written};
ghost use Rattle.mini_choices.specs.MinimizeNormalAssignmentToCombinedLogicalAssignment.{marked};

use crate::assigning::writes_name;
use crate::forms::is_undefined;
use crate::rewrites::inject_optional_chaining::{
    chain_of_first, chain_of_last, is_calm, is_equal, is_eval, is_spine, is_unequal,
};
use mini_context::Scopes;
use mini_model::{OutOfMemory, Seat};
use mini_node::{Node, is_conditional, is_null, taken};
use std::alloc::Global;

// Whether it is an assignment to a name that can be written and isn't `eval`, of a value that ends
// no chain.
fn writes_calmly(node: &Node, scopes: &Scopes) -> bool
    ensures kind { result ≡ row.writes_calmly (marked scopes.now) node.now }
    ensures parts { result ≡ true → count (children node.now) ≡ 2 }
{
    writes_name(node, scopes) && !is_eval(node.child(0).name()) && is_calm(node.child(1))
}

// Whether it compares such an assignment with null.
fn asks_assigned(comparison: &Node, scopes: &Scopes) -> bool
    requires { count (children comparison.now) ≡ 2 }
    ensures kind { result ≡ row.asks_assigned (marked scopes.now) comparison.now }
    ensures parts { result ≡ true → count (children (part comparison.now 0)) ≡ 2 }
{
    is_null(comparison.child(1)) && writes_calmly(comparison.child(0), scopes)
}

// Whether beside such a test undefined is written for one branch, and the other reads what the name
// holds.
fn reads_assigned(comparison: &Node, missing: &Node, read: &Node, scopes: &Scopes) -> bool
    requires { count (children comparison.now) ≡ 2 }
    ensures { result ≡ row.reads_assigned (marked scopes.now) comparison.now missing.now read.now }
{
    asks_assigned(comparison, scopes)
        && is_undefined(missing)
        && is_spine(comparison.child(0).child(0), read)
}

// `(x = a) == null ? void 0 : x.m`
fn is_assigned_last(node: &Node, scopes: &Scopes) -> bool
    ensures { result ≡ row.is_assigned_last (marked scopes.now) node.now }
{
    is_conditional(node)
        && is_equal(node.child(0))
        && reads_assigned(node.child(0), node.child(1), node.child(2), scopes)
}

// `(x = a) != null ? x.m : void 0`
fn is_assigned_first(node: &Node, scopes: &Scopes) -> bool
    ensures { result ≡ row.is_assigned_first (marked scopes.now) node.now }
{
    is_conditional(node)
        && is_unequal(node.child(0))
        && reads_assigned(node.child(0), node.child(2), node.child(1), scopes)
}

/// `(x = a) == null ? void 0 : x.m` becomes `(x = a)?.m`, and so do other members and calls over x,
/// and `(x = a) != null ? x.m : void 0`, where the program mentions x as a name that can be
/// written, and it isn't named `eval`. As a callee and under `delete` the chain stands behind a
/// `0`, so that its value is read. The answer says whether it did; the only error is that memory
/// runs out, and then the expression is fit only to be dropped.
pub fn inject_assigned_chaining(
    alloc: Global,
    node: &mut Node,
    seat: Seat,
    scopes: &Scopes,
) -> Result<bool, OutOfMemory>
    ensures tree { OnOk result (node.new ≡ unwrap_or (written (marked scopes.now) seat node.old) node.old) }
    ensures said { IfOk result (λ changed. changed ≡ is_some (written (marked scopes.now) seat node.old)) }
{
    let made = if is_assigned_last(node, scopes) {
        chain_of_last(alloc, taken(alloc, node), seat.guard)?
    } else if is_assigned_first(node, scopes) {
        chain_of_first(alloc, taken(alloc, node), seat.guard)?
    } else {
        return Ok(false);
    };
    *node = made;
    Ok(true)
}
