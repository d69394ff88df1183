//! Row 23, of what is read inside the operand too: `!(a && typeof x < "u")` becomes
//! `!a || typeof x > "u"`, and `!(a, b == c)` becomes `a, b != c`, where that is lighter.

ghost use Rattle.std.specs.Prelude.{◌≡◌, is_some, unwrap_or, OnOk, IfOk};
ghost use Rattle.mini_tree.specs.Rule.{Applied};
ghost use Rattle.mini_logic.specs.Lighter.{negation_lighter};
ghost use Rattle.mini_logic.specs.MinimizeNegation.{minimizes as it_minimizes, written, Gives, Rests};

use crate::whole::{reaches_in, told_negation, told_weight};
use mini_model::{OutOfMemory, Position, Seat};
use mini_node::{Node, is_negation, one, taken};
use mini_tree::{Context, Rule, expr_weight};
use std::alloc::Global;

// `!e`, where the whole negation of e is lighter
fn minimizes(node: &Node, seat: Seat) -> bool
    ensures { result ≡ it_minimizes seat node.now }
{
    is_negation(node)
        && reaches_in(node.child(0))
        && told_weight(node.child(0), seat) < expr_weight(node, seat)
}

/// `!(a && typeof x < "u")` becomes `!a || typeof x > "u"`, and `!(a, b == c)` becomes `a, b != c`,
/// where that is lighter in the seat. The answer says whether it did; the only error is that memory
/// runs out, and then the expression is fit only to be dropped.
pub fn minimize_negation(alloc: Global, node: &mut Node, seat: Seat) -> Result<bool, OutOfMemory>
    ensures tree { OnOk result (node.new ≡ unwrap_or (written seat node.old) node.old) }
    ensures said { IfOk result (λ changed. changed ≡ is_some (written seat node.old)) }
{
    if !minimizes(node, seat) {
        return Ok(false);
    }
    let other = told_negation(alloc, one(taken(alloc, node)), seat)?;
    *node = other;
    Ok(true)
}

/// Row 23 of what is read inside the operand, as a rule: of each expression.
pub struct MinimizeNegations;

impl<C: Context> Rule<C> for MinimizeNegations {
    ghost gives = { λ o q. Gives };

    ghost rests = { λ o q. Rests };

    ghost lighter = { λ o q. negation_lighter };

    fn apply(
        &self,
        alloc: Global,
        node: &mut Node,
        place: Position,
        context: &mut C,
    ) -> Result<bool, OutOfMemory> {
        match place {
            Position::Expr(seat) => Ok(minimize_negation(alloc, node, seat)?),
            _ => Ok(false),
        }
    }
}
