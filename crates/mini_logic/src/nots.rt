//! The negation of an expression, as calls of their own.

ghost use Rattle.std.specs.Prelude.{◌≡◌, OnOk, IfOk, if◌then◌else◌};
ghost use Rattle.mini_logic.specs.MinimizeNegation.{told, told_lightest, negates};

use crate::terms::has_own_negation;
use crate::whole::{lightest_negation, reaches_in, told_negation};
use mini_model::{OutOfMemory, Seat};
use mini_node::{Node, taken};
use std::alloc::Global;

/// What `!e` is written as in this seat: the lightest of `!` over the expression, its negation and
/// its whole negation, and the last where others weigh as much. It means what `!e` does
/// (`negations_mean_the_same`). The only error is that memory runs out.
pub fn minimize_not(alloc: Global, expression: Node, seat: Seat) -> Result<Node, OutOfMemory>
    ensures { IfOk result (λ w. w ≡ told_lightest seat expression) }
{
    lightest_negation(alloc, expression, seat)
}

/// Makes an expression its whole negation, unless that is `!` over it. The answer says whether it
/// did: true of `a == b`, of `a && b`, of `a, b` and of `typeof a < "u"`, and false of `a`, which
/// stays. The only error is that memory runs out, and then the expression is fit only to be
/// dropped.
pub fn try_negate_expression(
    alloc: Global,
    expression: &mut Node,
    seat: Seat,
) -> Result<bool, OutOfMemory>
    ensures tree { OnOk result (expression.new ≡ (if negates seat expression.old then told seat expression.old else expression.old)) }
    ensures said { IfOk result (λ changed. changed ≡ negates seat expression.old) }
{
    if !reaches_in(expression) && !has_own_negation(expression, seat) {
        return Ok(false);
    }
    let other = told_negation(alloc, taken(alloc, expression), seat)?;
    *expression = other;
    Ok(true)
}
