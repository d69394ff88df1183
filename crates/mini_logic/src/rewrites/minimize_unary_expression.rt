//! Row 23: `!e` becomes the negation of e, where that is lighter in the seat.

ghost use Rattle.std.specs.Prelude.{◌≡◌, OnOk, IfOk};
ghost use Rattle.mini_tree.specs.Rule.{Applied};
ghost use Rattle.mini_logic.specs.Lighter.{unary_lighter};
ghost use Rattle.mini_logic.specs.MinimizeUnaryExpression.{has_lighter_negation as has_a_lighter_negation, minimizes_unary, minimized_unary, Gives, Rests};

use crate::terms::{has_own_negation, neg_weight, negated};
use mini_model::{OutOfMemory, Position, Seat};
use mini_node::{Node, is_negation, one, taken};
use mini_tree::{Context, Rule, negation_weight};
use std::alloc::Global;

// Whether the negation of an expression is lighter than a `!` before it.
fn has_lighter_negation(expression: &Node, seat: Seat) -> bool
    ensures { result ≡ has_a_lighter_negation seat expression.now }
{
    has_own_negation(expression, seat)
        && neg_weight(expression, seat) < negation_weight(expression, seat)
}

// `!e`, where the negation of e is lighter
fn is_minimized(node: &Node, seat: Seat) -> bool
    ensures { result ≡ minimizes_unary seat node.now }
{
    is_negation(node) && has_lighter_negation(node.child(0), seat)
}

/// `!e` becomes the negation of e where that is lighter in the seat. The answer says whether it
/// did; the only error is that memory runs out, and then the expression is fit only to be dropped.
pub fn minimize_unary(alloc: Global, node: &mut Node, seat: Seat) -> Result<bool, OutOfMemory>
    ensures tree { OnOk result (node.new ≡ minimized_unary seat node.old) }
    ensures said { IfOk result (λ changed. changed ≡ minimizes_unary seat node.old) }
{
    if !is_minimized(node, seat) {
        return Ok(false);
    }
    *node = negated(alloc, one(taken(alloc, node)), seat)?;
    Ok(true)
}

/// Row 23 as a rule: of each expression.
pub struct MinimizeUnary;

impl<C: Context> Rule<C> for MinimizeUnary {
    ghost gives = { λ o q. Gives };

    ghost rests = { λ o q. Rests };

    ghost lighter = { λ o q. unary_lighter };

    #[tactic(auto, using(crate::proofs::MinimizeUnaryExpression::applied))]
    fn apply(
        &self,
        alloc: Global,
        node: &mut Node,
        place: Position,
        context: &mut C,
    ) -> Result<bool, OutOfMemory> {
        match place {
            Position::Expr(seat) => Ok(minimize_unary(alloc, node, seat)?),
            _ => Ok(false),
        }
    }
}
