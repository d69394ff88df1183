//! Row 40: `!a ? b : c` becomes `a ? c : b`, and `a != b ? c : d` becomes `a == b ? d : c`. Each is
//! lighter in every seat.

ghost use Rattle.std.specs.Prelude.{◌≡◌, is_some, unwrap_or, OnOk, IfOk};
ghost use Rattle.mini_tree.specs.Rule.{Applied};
ghost use Rattle.mini_logic.specs.Lighter.{conditional_lighter};
ghost use Rattle.mini_logic.specs.MinimizeConditionalExpression.{has_negated_test as has_a_negated_test, swapped as with_swapped_branches, equal_by, equal_operator as its_equal_operator, turned as turned_by, written, Gives, Rests};

use mini_model::{BinaryOperator, OutOfMemory, Position};
use mini_node::{
    Node, binary, binary_operator, conditional, is_conditional, is_negation, one, taken, three, two,
};
use mini_tree::{Context, Rule};
use std::alloc::Global;

// `!a ? b : c`
fn has_negated_test(node: &Node) -> bool
    ensures { result ≡ has_a_negated_test node.now }
{
    is_conditional(node) && is_negation(node.child(0))
}

// `a ? c : b`
fn swapped(alloc: Global, node: Node) -> Result<Node, OutOfMemory>
    ensures { IfOk result (λ w. w ≡ with_swapped_branches node) }
{
    let (test, consequent, alternate) = three(node);
    conditional(alloc, one(test), alternate, consequent)
}

// Of an inequality the operator of the equality.
fn equal(operator: Option<BinaryOperator>) -> Option<BinaryOperator>
    ensures { result ≡ equal_by operator }
{
    match operator {
        Some(BinaryOperator::Inequality) => Some(BinaryOperator::Equality),
        Some(BinaryOperator::StrictInequality) => Some(BinaryOperator::StrictEquality),
        _ => None,
    }
}

// The operator of `==`, where the test is `a != b`.
fn equal_operator(node: &Node) -> Option<BinaryOperator>
    ensures { result ≡ its_equal_operator node.now }
{
    if !is_conditional(node) {
        return None;
    }
    equal(binary_operator(node.child(0)))
}

// `a == b ? d : c`
fn turned(alloc: Global, node: Node, operator: BinaryOperator) -> Result<Node, OutOfMemory>
    ensures { IfOk result (λ w. w ≡ turned_by node operator) }
{
    let (test, consequent, alternate) = three(node);
    let (left, right) = two(test);
    let equality = binary(alloc, operator, left, right)?;
    conditional(alloc, equality, alternate, consequent)
}

/// `!a ? b : c` becomes `a ? c : b`, and `a != b ? c : d` becomes `a == b ? d : c`. The answer says
/// whether it did; the only error is that memory runs out, and then the expression is fit only to
/// be dropped.
pub fn minimize_conditional_expression(alloc: Global, node: &mut Node) -> Result<bool, OutOfMemory>
    ensures tree { OnOk result (node.new ≡ unwrap_or (written node.old) node.old) }
    ensures said { IfOk result (λ changed. changed ≡ is_some (written node.old)) }
{
    let written = if has_negated_test(node) {
        swapped(alloc, taken(alloc, node))?
    } else if let Some(operator) = equal_operator(node) {
        turned(alloc, taken(alloc, node), operator)?
    } else {
        return Ok(false);
    };
    *node = written;
    Ok(true)
}

/// Row 40 as a rule: of each expression.
pub struct MinimizeConditional;

impl<C: Context> Rule<C> for MinimizeConditional {
    ghost gives = { λ o q. Gives };

    ghost rests = { λ o q. Rests };

    ghost lighter = { λ o q. conditional_lighter };

    #[tactic(auto, using(crate::proofs::MinimizeConditionalExpression::applied))]
    fn apply(
        &self,
        alloc: Global,
        node: &mut Node,
        place: Position,
        context: &mut C,
    ) -> Result<bool, OutOfMemory> {
        match place {
            Position::Expr(_) => Ok(minimize_conditional_expression(alloc, node)?),
            _ => Ok(false),
        }
    }
}
