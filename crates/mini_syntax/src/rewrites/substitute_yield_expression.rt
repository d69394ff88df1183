//! Row 60 of `yield`: `yield void 0` becomes `yield`, which is lighter in every seat.

ghost use Rattle.std.specs.Prelude.{◌≡◌, is_some, unwrap_or, OnOk, IfOk};
ghost use Rattle.mini_model.specs.Tree.{absent as no_part};
ghost use Rattle.mini_rows.specs.Spellings.{yields};
ghost use Rattle.mini_syntax.specs.SubstituteYieldExpression.{yields_void_zero as is_it_void_zero, written};

use crate::forms::is_void_zero;
use mini_model::{OutOfMemory, Shape};
use mini_node::{Node, absent, of_one};
use std::alloc::Global;

// `yield void 0`
fn yields_void_zero(node: &Node) -> bool
    ensures { result ≡ is_it_void_zero node.now }
{
    match node.shape() {
        Shape::YieldExpression(false) => node.is_bare(1) && is_void_zero(node.child(0)),
        _ => false,
    }
}

// `yield`
fn yields_nothing(alloc: Global) -> Result<Node, OutOfMemory>
    ensures { IfOk result (λ w. w ≡ yields no_part) }
{
    let children = of_one(alloc, absent(alloc))?;
    Ok(Node::new(Shape::YieldExpression(false), children))
}

/// `yield void 0` becomes `yield`. The answer says whether it did; the only error is that memory
/// runs out, and then the expression is fit only to be dropped.
pub fn substitute_yield_expression(alloc: Global, node: &mut Node) -> Result<bool, OutOfMemory>
    ensures tree { OnOk result (node.new ≡ unwrap_or (written node.old) node.old) }
    ensures said { IfOk result (λ changed. changed ≡ is_some (written node.old)) }
{
    if !yields_void_zero(node) {
        return Ok(false);
    }
    *node = yields_nothing(alloc)?;
    Ok(true)
}
