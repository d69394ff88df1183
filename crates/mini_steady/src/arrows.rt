//! The own code of an arrow function.

ghost use Rattle.std.specs.Prelude.{◌≡◌, true, IfOk};
ghost use Rattle.mini_model.specs.Tree.{children, count};
ghost use Rattle.mini_steady.specs.Arrows as row;
ghost use Rattle.mini_steady.specs.Arrows.{AppliedInArrow};
ghost use Rattle.mini_unused.specs.Allowed.{switches_of};

use crate::code::code_of;
use crate::functions::has_no_name;
use crate::own::{OwnRewrites, minimize_own_code};
use crate::steady::SteadyNames;
use mini_model::{OutOfMemory, Position, Shape};
use mini_node::Node;
use mini_tree::child_place;
use std::alloc::Global;

fn is_arrow(node: &Node) -> bool
    ensures kind { result ≡ row.is_arrow node.now }
    ensures parts { result ≡ true → count (children node.now) ≡ 2 }
{
    matches!(node.shape(), Shape::ArrowFunctionExpression(_))
        && has_no_name(node.name())
        && node.children().len() == 2
}

/// Makes rows in the own code of an arrow function, be its body a block or an expression: by rows
/// of members `x => x.k || (x.k = b)` becomes `x => x.k ||= b`. The answer says whether anything
/// changed, and where nothing did no row reads the arrow function; the only error is that memory
/// runs out, and then it is fit only to be dropped.
pub fn minimize_in_arrow<S: SteadyNames, W: OwnRewrites<S>>(
    alloc: Global,
    node: &mut Node,
    steady: &S,
    rewrites: &W,
) -> Result<bool, OutOfMemory>
    ensures { IfOk result (λ changed. AppliedInArrow (W.rows (switches_of (S.orders steady.now))) (S.sets steady.now) node.old node.new changed) }
{
    if !is_arrow(node) {
        return Ok(false);
    }
    let number = node.number();
    let place = child_place(node.shape(), Position::Elsewhere, 2, 1);
    let mut code = code_of(alloc, number, node.child(1))?;
    let body = node.children_mut().child_mut(1);
    Ok(minimize_own_code(alloc, body, place, &mut code, steady, rewrites)?)
}
