//! The own code of a static block, and of an inner expression.

ghost use Rattle.std.specs.Prelude.{◌≡◌, true, IfOk};
ghost use Rattle.mini_model.specs.Tree.{children, count};
ghost use Rattle.mini_steady.specs.Parts as row;
ghost use Rattle.mini_steady.specs.Parts.{AppliedInPart};
ghost use Rattle.mini_unused.specs.Allowed.{switches_of};

use crate::code::code_of;
use crate::functions::has_no_name;
use crate::own::{OwnRewrites, minimize_own_code};
use crate::steady::SteadyNames;
use mini_model::{OutOfMemory, Position, Shape};
use mini_node::Node;
use mini_tree::child_place;
use std::alloc::Global;

fn is_part(node: &Node) -> bool
    ensures kind { result ≡ row.is_part node.now }
    ensures parts { result ≡ true → count (children node.now) ≡ 1 }
{
    matches!(node.shape(), Shape::StaticBlock | Shape::InnerExpression)
        && has_no_name(node.name())
        && node.children().len() == 1
}

/// Makes rows in the own code of a static block, or of an inner expression at its place: by rows of
/// members `static { const x = a(); x.k || (x.k = b); }` becomes
/// `static { const x = a(); x.k ||= b; }`, and the value of a field `y = this.k || (this.k = b)`
/// becomes `y = this.k ||= b`. The answer says whether anything changed, and where nothing did no
/// row reads the node; the only error is that memory runs out, and then it is fit only to be
/// dropped.
pub fn minimize_in_part<S: SteadyNames, W: OwnRewrites<S>>(
    alloc: Global,
    node: &mut Node,
    place: Position,
    steady: &S,
    rewrites: &W,
) -> Result<bool, OutOfMemory>
    ensures { IfOk result (λ changed. AppliedInPart (W.rows (switches_of (S.orders steady.now))) (S.sets steady.now) place node.old node.new changed) }
{
    if !is_part(node) {
        return Ok(false);
    }
    let number = node.number();
    let inside = child_place(node.shape(), place, 1, 0);
    let mut code = code_of(alloc, number, node.child(0))?;
    let held = node.children_mut().child_mut(0);
    Ok(minimize_own_code(alloc, held, inside, &mut code, steady, rewrites)?)
}
