//! The own code of a function.

ghost use Rattle.std.specs.Prelude.{◌≡◌, true, IfOk};
ghost use Rattle.mini_model.specs.Tree.{children, count};
ghost use Rattle.mini_node.specs.Children.{names};
ghost use Rattle.mini_steady.specs.Functions as row;
ghost use Rattle.mini_steady.specs.Functions.{AppliedInFunction};
ghost use Rattle.mini_unused.specs.Allowed.{switches_of};

use crate::code::code_of;
use crate::own::{OwnRewrites, minimize_own_code};
use crate::steady::SteadyNames;
use mini_model::{Name, OutOfMemory, Position, Shape};
use mini_node::Node;
use std::alloc::Global;

/// Whether a node has no name of its own.
pub fn has_no_name(name: &Option<Name>) -> bool
    ensures { result ≡ row.are_no_names (names name.now) }
{
    match name {
        Some(_) => false,
        None => true,
    }
}

// A function that is no arrow function.
fn is_function(node: &Node) -> bool
    ensures kind { result ≡ row.is_function node.now }
    ensures parts { result ≡ true → count (children node.now) ≡ 3 }
{
    matches!(node.shape(), Shape::Function(_, _, _))
        && has_no_name(node.name())
        && node.children().len() == 3
}

/// Makes rows in the own code of a function that is no arrow function, wherever it stands: by rows
/// of members `function f(x) { x.k || (x.k = b); }` becomes `function f(x) { x.k ||= b; }`. The
/// answer says whether anything changed, and where nothing did no row reads the function; the only
/// error is that memory runs out, and then the function is fit only to be dropped.
pub fn minimize_in_function<S: SteadyNames, W: OwnRewrites<S>>(
    alloc: Global,
    node: &mut Node,
    steady: &S,
    rewrites: &W,
) -> Result<bool, OutOfMemory>
    ensures { IfOk result (λ changed. AppliedInFunction (W.rows (switches_of (S.orders steady.now))) (S.sets steady.now) node.old node.new changed) }
{
    if !is_function(node) {
        return Ok(false);
    }
    let number = node.number();
    let mut code = code_of(alloc, number, node.child(2))?;
    let body = node.children_mut().child_mut(2);
    Ok(minimize_own_code(
        alloc,
        body,
        Position::Elsewhere,
        &mut code,
        steady,
        rewrites,
    )?)
}
