//! Row 59: `() => { return a; }` becomes `() => a`, which is lighter in every seat.

ghost use Rattle.std.specs.Prelude.{◌≡◌, ◌<◌, true, is_some, unwrap_or, OnOk, IfOk};
ghost use Rattle.mini_model.specs.Tree.{children, count, shape_of};
ghost use Rattle.mini_node.specs.Children.{part, names};
ghost use Rattle.mini_tree.specs.Rule.{Applied};
ghost use Rattle.mini_syntax.specs.Lighter.{arrows_lighter};
ghost use Rattle.mini_syntax.specs.SubstituteArrowExpression.{is_plain_arrow as is_a_plain_arrow, are_no_names, returned as returned_by, returns as it_returns, is_returning as it_is_returning, unwrapped as unwrapped_arrow, written, Gives, Rests};

use crate::forms::is_list_of;
use mini_model::{Name, OutOfMemory, Position, Shape};
use mini_node::{Node, discard, is_return_statement, one, taken};
use mini_tree::{Context, Rule};
use std::alloc::Global;

// An arrow function without directives.
#[tactic(auto, using(crate::proofs::Arrows::none_by_length))]
fn is_plain_arrow(node: &Node) -> bool
    ensures { result ≡ is_a_plain_arrow (shape_of node.now) }
{
    match node.shape() {
        Shape::ArrowFunctionExpression(directives) => directives.is_empty(),
        _ => false,
    }
}

fn has_no_name(name: &Option<Name>) -> bool
    ensures { result ≡ are_no_names (names name.now) }
{
    match name {
        Some(_) => false,
        None => true,
    }
}

// `{ return a; }`, as a body
fn returns(body: &Node) -> bool
    ensures { result ≡ it_returns body.now }
{
    matches!(body.shape(), Shape::FunctionBody)
        && body.is_bare(1)
        && is_list_of(1, body.child(0))
        && is_return_statement(body.child(0).child(0))
        && !matches!(body.child(0).child(0).child(0).shape(), Shape::Absent)
}

// `() => { return a; }`
#[tactic(auto, using(crate::proofs::Arrows::two_by_count))]
fn is_returning(node: &Node) -> bool
    ensures kind { result ≡ it_is_returning node.now }
    ensures parts { result ≡ true → count (children node.now) ≡ 2 }
{
    is_plain_arrow(node)
        && has_no_name(node.name())
        && node.children().len() == 2
        && returns(node.child(1))
}

// What a body that is one `return` returns.
fn returned(body: Node) -> Node
    ensures { result ≡ returned_by body }
{
    one(one(one(body)))
}

// `() => a`
#[tactic(auto, using(crate::proofs::Arrows::with_twice, crate::proofs::Arrows::count_with))]
fn unwrapped(mut node: Node) -> Node
    requires { 1 < count (children node) }
    ensures { result ≡ unwrapped_arrow node }
{
    let mut children = node.take_children();
    let body = children.take(1);
    discard(children.replace(1, returned(body)));
    node.over(children)
}

/// `() => { return a; }` becomes `() => a`. The answer says whether it did; the only error is that
/// memory runs out.
pub fn substitute_arrow_expression(alloc: Global, node: &mut Node) -> Result<bool, OutOfMemory>
    ensures tree { OnOk result (node.new ≡ unwrap_or (written node.old) node.old) }
    ensures said { IfOk result (λ changed. changed ≡ is_some (written node.old)) }
{
    if !is_returning(node) {
        return Ok(false);
    }
    *node = unwrapped(taken(alloc, node));
    Ok(true)
}

/// Row 59 as a rule: of each expression.
pub struct SubstituteArrows;

impl<C: Context> Rule<C> for SubstituteArrows {
    ghost gives = { λ o q. Gives };

    ghost rests = { λ o q. Rests };

    ghost lighter = { λ o q. arrows_lighter };

    #[tactic(auto, using(crate::proofs::Arrows::applied))]
    fn apply(
        &self,
        alloc: Global,
        node: &mut Node,
        place: Position,
        context: &mut C,
    ) -> Result<bool, OutOfMemory> {
        match place {
            Position::Expr(_) => Ok(substitute_arrow_expression(alloc, node)?),
            _ => Ok(false),
        }
    }
}
