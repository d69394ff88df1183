//! Rows 24, 25 and 26, where only the truth of an expression is asked: `!0` becomes `1`, `a && 1`
//! becomes `a`, and `a ? 1 : b` becomes `a || b`. And of rows 47 and 48, where the value is asked:
//! `a ? false : b` becomes `!a && b`, `a ? true : false` `!!a`, and `a ? 0 : 1` `+!a`.

ghost use Rattle.std.specs.Prelude.{◌≡◌, ◌+◌, [], true, not, is_some, unwrap_or, OnOk, IfOk};
ghost use Rattle.mini_model.specs.Position.{is_and_or as is_it_and_or, left_operand_seat as left_seat};
ghost use Rattle.mini_model.specs.Weight.{capped, outlines, own_weight as weight_of_own, weight as weight_at};
ghost use Rattle.mini_model.specs.Tree.{children, count, logical as logical_of, negation as negation_of};
ghost use Rattle.mini_model.specs.declared.place.Position.TheVariants.{Expr};
ghost use Rattle.mini_model.specs.declared.shape.Shape.TheVariants.{UnaryExpression};
ghost use Rattle.mini_node.specs.Children.{part};
ghost use Rattle.mini_node.specs.Kinds.{logical_operator as logical_operator_of};
ghost use Rattle.mini_tree.specs.Rule.{Applied};
ghost use Rattle.mini_rows.specs.Booleans as row;
ghost use Rattle.mini_logic.specs.Lighter.{booleans_lighter};
ghost use Rattle.mini_logic.specs.Negating.{lighter_negation as lighter_negation_of};
ghost use Rattle.mini_logic.specs.MinimizeExpressionInBooleanContext as boolean;
ghost use Rattle.mini_logic.specs.MinimizeExpressionInBooleanContext.{Gives, Rests};

use crate::terms::{lighter_negation, lighter_negation_weight, own_weight as own_logical_weight};
use mini_model::{LogicalOperator, OutOfMemory, Position, Seat, Shape, UnaryOperator};
use mini_node::{
    Node, discard, is_conditional, is_negation, logical, logical_operator, negation, number,
    numeric_literal, one, taken, three, unary,
};
use mini_terms::{
    Kind, evident_truth, goes_on, has_no_effect, is_plain_part, kind_of, leaves_nothing, stands,
    weighs,
};
use mini_tree::{Context, Rule, expr_weight, logical_weight, negation_weight, own_weight, seats};
use std::alloc::Global;

// The truth of `!0`, and of `!1`.
fn negated_truth(digit: Option<i64>) -> Option<bool>
    ensures { result ≡ boolean.negated_truth digit }
{
    match digit {
        Some(0) => Some(true),
        Some(1) => Some(false),
        _ => None,
    }
}

// `1`, or `0`
fn digit(alloc: Global, truth: bool) -> Node
    ensures { result ≡ row.digit truth }
{
    if truth {
        numeric_literal(alloc, 1)
    } else {
        numeric_literal(alloc, 0)
    }
}

// `!0` becomes `1`, and `!1` becomes `0`.
fn minimize_digit(alloc: Global, node: &mut Node, seat: Seat) -> bool
    ensures tree { node.new ≡ unwrap_or (boolean.digit_written seat node.old) node.old }
    ensures said { result ≡ is_some (boolean.digit_written seat node.old) }
{
    if !(seat.boolean && is_negation(node)) {
        return false;
    }
    let Some(truth) = negated_truth(number(node.child(0))) else {
        return false;
    };
    *node = digit(alloc, truth);
    true
}

/// Whether the operands tell the truth of the whole: of `&&` and `||`.
pub fn is_and_or(operator: LogicalOperator) -> bool
    ensures { result ≡ is_it_and_or operator }
{
    match operator {
        LogicalOperator::Coalesce => false,
        LogicalOperator::Or => true,
        LogicalOperator::And => true,
    }
}

// Whether the right side goes, since the truth would be that of the left side.
fn is_told(seat: Seat, operator: LogicalOperator, left: &Node, right: &Node) -> bool
    ensures { result ≡ boolean.is_told seat operator left.now right.now }
{
    seat.boolean
        && is_and_or(operator)
        && goes_on(operator, right)
        && has_no_effect(right)
        && leaves_nothing(right)
        && weighs(right)
        && is_plain_part(left)
}

// `a && 1` and `a || 0` become `a`.
fn minimize_logical(alloc: Global, node: &mut Node, seat: Seat) -> bool
    ensures tree { node.new ≡ unwrap_or (boolean.left_written seat (logical_operator_of node.old) (part node.old 0) (part node.old 1)) node.old }
    ensures said { result ≡ is_some (boolean.left_written seat (logical_operator_of node.old) (part node.old 0) (part node.old 1)) }
{
    let Some(operator) = logical_operator(node) else {
        return false;
    };
    if !is_told(seat, operator, node.child(0), node.child(1)) {
        return false;
    }
    *node = one(taken(alloc, node));
    true
}

// The truth of what may go, where it is known.
fn known_truth(node: &Node) -> Option<bool>
    ensures { result ≡ boolean.known_truth node.now }
{
    if has_no_effect(node) && leaves_nothing(node) {
        evident_truth(node)
    } else {
        None
    }
}

// The consequent of a conditional, or its alternate.
fn branch_at(node: &Node, is_consequent: bool) -> &Node
    requires { count (children node.now) ≡ 3 }
    ensures { result.now ≡ boolean.branch_at is_consequent node.now }
{
    if is_consequent {
        node.child(1)
    } else {
        node.child(2)
    }
}

fn is_boolean_kind(kind: Kind) -> bool
    ensures { result ≡ row.is_boolean_kind kind }
{
    match kind {
        Kind::Boolean => true,
        _ => false,
    }
}

// The operator that gives a truth at once where its left side tells it.
fn giving(truth: bool) -> LogicalOperator
    ensures { result ≡ row.giving truth }
{
    if truth {
        LogicalOperator::Or
    } else {
        LogicalOperator::And
    }
}

// Whether the test is negated.
fn is_turned(is_consequent: bool, truth: bool) -> bool
    ensures { result ≡ row.is_turned is_consequent truth }
{
    if is_consequent { !truth } else { truth }
}

// Whether a conditional of whose branches this one is known may be a logical expression.
fn may_join(seat: Seat, is_consequent: bool, truth: bool, test: &Node, branch: &Node) -> bool
    ensures { result ≡ boolean.may_join seat is_consequent truth test.now branch.now }
{
    seat.boolean
        || (is_boolean_kind(kind_of(branch))
            && (is_turned(is_consequent, truth) || is_boolean_kind(kind_of(test))))
}

/// The weight of the logical expression of this operator over the negation of a test.
#[tactic(auto, using(crate::proofs::Weights::weight_logical))]
pub fn turned_weight(operator: LogicalOperator, test: &Node, other: &Node, seat: Seat) -> u64
    ensures { result ≡ capped (weight_at (Expr seat) (logical_of operator (lighter_negation_of (left_seat operator seat) test.now) other.now)) }
{
    own_logical_weight(operator, seat)
        .saturating_add(lighter_negation_weight(test, seats::left_operand(operator, seat)))
        .saturating_add(expr_weight(other, seats::right_operand(operator, seat)))
}

// The weight of `a || b`, `!a && b`, `!a || b` or `a && b`.
fn joined_weight(node: &Node, seat: Seat, is_consequent: bool, truth: bool) -> u64
    requires { count (children node.now) ≡ 3 }
    ensures { result ≡ capped (weight_at (Expr seat) (boolean.joined_of seat is_consequent truth node.now)) }
{
    let other = branch_at(node, !is_consequent);
    if is_turned(is_consequent, truth) {
        turned_weight(giving(truth), node.child(0), other, seat)
    } else {
        logical_weight(giving(truth), node.child(0), other, seat)
    }
}

// Whether that is written: it may be, and is lighter.
fn joins(node: &Node, seat: Seat, is_consequent: bool, truth: bool) -> bool
    requires { count (children node.now) ≡ 3 }
    ensures { result ≡ boolean.joins seat is_consequent truth node.now }
{
    may_join(
        seat,
        is_consequent,
        truth,
        node.child(0),
        branch_at(node, is_consequent),
    ) && joined_weight(node, seat, is_consequent, truth) < expr_weight(node, seat)
}

// The test, or its negation.
fn tested(alloc: Global, test: Node, turned: bool, seat: Seat) -> Result<Node, OutOfMemory>
    ensures { IfOk result (λ w. w ≡ boolean.tested seat turned test) }
{
    if turned {
        lighter_negation(alloc, test, seat)
    } else {
        Ok(test)
    }
}

// The other branch of a conditional, and its test.
fn other_branch(node: Node, is_consequent: bool) -> (Node, Node)
    ensures first { result.0 ≡ part node 0 }
    ensures second { result.1 ≡ boolean.branch_at (not is_consequent) node }
{
    let (test, consequent, alternate) = three(node);
    if is_consequent {
        discard(consequent);
        (test, alternate)
    } else {
        discard(alternate);
        (test, consequent)
    }
}

// `a || b`, `!a && b`, `!a || b` or `a && b`
fn joined(
    alloc: Global,
    node: Node,
    seat: Seat,
    is_consequent: bool,
    truth: bool,
) -> Result<Node, OutOfMemory>
    ensures { IfOk result (λ w. w ≡ boolean.joined_of seat is_consequent truth node) }
{
    let (test, other) = other_branch(node, is_consequent);
    let operator = giving(truth);
    let left = tested(
        alloc,
        test,
        is_turned(is_consequent, truth),
        seats::left_operand(operator, seat),
    )?;
    logical(alloc, operator, left, other)
}

// By one branch.
fn minimize_branch(
    alloc: Global,
    node: &mut Node,
    seat: Seat,
    is_consequent: bool,
) -> Result<bool, OutOfMemory>
    requires { count (children node.old) ≡ 3 }
    ensures tree { OnOk result (node.new ≡ unwrap_or (boolean.branch_written seat is_consequent node.old) node.old) }
    ensures said { IfOk result (λ changed. changed ≡ is_some (boolean.branch_written seat is_consequent node.old)) }
{
    let Some(truth) = known_truth(branch_at(node, is_consequent)) else {
        return Ok(false);
    };
    if !joins(node, seat, is_consequent, truth) {
        return Ok(false);
    }
    let written = joined(alloc, taken(alloc, node), seat, is_consequent, truth)?;
    *node = written;
    Ok(true)
}

// `a ? 1 : b` becomes `a || b`.
fn minimize_branches(alloc: Global, node: &mut Node, seat: Seat) -> Result<bool, OutOfMemory>
    requires { count (children node.old) ≡ 3 }
    ensures tree { OnOk result (node.new ≡ unwrap_or (boolean.branches_written seat node.old) node.old) }
    ensures said { IfOk result (λ changed. changed ≡ is_some (boolean.branches_written seat node.old)) }
{
    if minimize_branch(alloc, node, seat, true)? {
        return Ok(true);
    }
    minimize_branch(alloc, node, seat, false)
}

// The truth of a boolean that may go, where it is known.
fn boolean_truth(node: &Node) -> Option<bool>
    ensures { result ≡ boolean.boolean_truth node.now }
{
    if is_boolean_kind(kind_of(node)) {
        known_truth(node)
    } else {
        None
    }
}

// The first of two truths, where the second is the other one.
fn opposite(first: Option<bool>, second: Option<bool>) -> Option<bool>
    ensures { result ≡ boolean.opposite first second }
{
    match (first, second) {
        (Some(true), Some(false)) => Some(true),
        (Some(false), Some(true)) => Some(false),
        _ => None,
    }
}

// The truth of the consequent, where both branches are booleans and the alternate is the other one.
fn told_truth(node: &Node) -> Option<bool>
    requires { count (children node.now) ≡ 3 }
    ensures { result ≡ boolean.told_truth node.now }
{
    if is_plain_part(node.child(0)) {
        opposite(boolean_truth(node.child(1)), boolean_truth(node.child(2)))
    } else {
        None
    }
}

// The truth of `1`, and of `0`.
fn digit_truth(digit: Option<i64>) -> Option<bool>
    ensures { result ≡ boolean.digit_truth digit }
{
    match digit {
        Some(0) => Some(false),
        Some(1) => Some(true),
        _ => None,
    }
}

// The truth of the consequent, where both branches are these digits.
fn counted_truth(node: &Node) -> Option<bool>
    requires { count (children node.now) ≡ 3 }
    ensures { result ≡ boolean.counted_truth node.now }
{
    opposite(
        digit_truth(number(node.child(1))),
        digit_truth(number(node.child(2))),
    )
}

// Whether each value of an expression is a boolean, whatever is asked.
fn is_truth(node: &Node) -> bool
    ensures { result ≡ row.is_truth node.now }
{
    is_boolean_kind(kind_of(node)) && stands(node)
}

// What `!` or `+` writes besides its operand, which does not depend on that.
fn own_unary_weight(operator: UnaryOperator, like: &Node, seat: Seat) -> u64
    ensures { result ≡ capped (weight_of_own (Expr seat) (UnaryExpression operator) [] (outlines (children like.now))) }
{
    own_weight(
        &Shape::UnaryExpression(operator),
        &None,
        like.children(),
        Position::Expr(seat),
    )
}

// The weight of `!!a`.
fn twice_negated_weight(test: &Node, seat: Seat) -> u64
    ensures { result ≡ capped (weight_at (Expr seat) (negation_of (negation_of test.now))) }
{
    own_unary_weight(UnaryOperator::LogicalNot, test, seat).saturating_add(negation_weight(
        test,
        seats::not_operand(),
    ))
}

// The weight of `a` or `!!a`, or of `!a`.
fn truth_weight(truth: bool, test: &Node, seat: Seat) -> u64
    ensures { result ≡ capped (weight_at (Expr seat) (row.truth_of truth test.now)) }
{
    if !truth {
        negation_weight(test, seat)
    } else if is_truth(test) {
        expr_weight(test, seat)
    } else {
        twice_negated_weight(test, seat)
    }
}

// `a` or `!!a`, or `!a`
fn truth_of(alloc: Global, truth: bool, test: Node) -> Result<Node, OutOfMemory>
    ensures { IfOk result (λ w. w ≡ row.truth_of truth test) }
{
    if !truth {
        return negation(alloc, test);
    }
    if is_truth(&test) {
        return Ok(test);
    }
    let negated = negation(alloc, test)?;
    negation(alloc, negated)
}

// The test of a conditional.
fn test_of(node: Node) -> Node
    requires { count (children node) ≡ 3 }
    ensures { result ≡ part node 0 }
{
    let (test, consequent, alternate) = three(node);
    discard(consequent);
    discard(alternate);
    test
}

// `a ? true : false` becomes `!!a`, and `a ? false : true` becomes `!a`.
fn minimize_truth(alloc: Global, node: &mut Node, seat: Seat) -> Result<bool, OutOfMemory>
    requires { count (children node.old) ≡ 3 }
    ensures tree { OnOk result (node.new ≡ unwrap_or (boolean.truth_written seat node.old) node.old) }
    ensures said { IfOk result (λ changed. changed ≡ is_some (boolean.truth_written seat node.old)) }
{
    let Some(truth) = told_truth(node) else {
        return Ok(false);
    };
    if truth_weight(truth, node.child(0), seat) >= expr_weight(node, seat) {
        return Ok(false);
    }
    let written = truth_of(alloc, truth, test_of(taken(alloc, node)))?;
    *node = written;
    Ok(true)
}

// The weight of the operand of `+`.
fn operand_weight(truth: bool, test: &Node) -> u64
    ensures { result ≡ capped (weight_at (Expr row.plus_seat) (boolean.as_boolean truth test.now)) }
{
    let seat = seats::unary_operand(UnaryOperator::UnaryPlus);
    if truth {
        truth_weight(true, test, seat)
    } else {
        lighter_negation_weight(test, seat)
    }
}

// The weight of `+a`, `+!!a` or `+!a`.
fn number_weight(truth: bool, test: &Node, seat: Seat) -> u64
    ensures { result ≡ capped (weight_at (Expr seat) (row.plus (boolean.as_boolean truth test.now))) }
{
    own_unary_weight(UnaryOperator::UnaryPlus, test, seat).saturating_add(operand_weight(
        truth, test,
    ))
}

// The test as a boolean, or its negation, as the operand of `+`.
fn as_boolean(alloc: Global, truth: bool, test: Node) -> Result<Node, OutOfMemory>
    ensures { IfOk result (λ w. w ≡ boolean.as_boolean truth test) }
{
    if truth {
        truth_of(alloc, true, test)
    } else {
        lighter_negation(alloc, test, seats::unary_operand(UnaryOperator::UnaryPlus))
    }
}

// `a ? 1 : 0` becomes `+!!a`, and `a ? 0 : 1` becomes `+!a`.
fn minimize_number(alloc: Global, node: &mut Node, seat: Seat) -> Result<bool, OutOfMemory>
    requires { count (children node.old) ≡ 3 }
    ensures tree { OnOk result (node.new ≡ unwrap_or (boolean.number_written seat node.old) node.old) }
    ensures said { IfOk result (λ changed. changed ≡ is_some (boolean.number_written seat node.old)) }
{
    let Some(truth) = counted_truth(node) else {
        return Ok(false);
    };
    if number_weight(truth, node.child(0), seat) >= expr_weight(node, seat) {
        return Ok(false);
    }
    let operand = as_boolean(alloc, truth, test_of(taken(alloc, node)))?;
    let written = unary(alloc, UnaryOperator::UnaryPlus, operand)?;
    *node = written;
    Ok(true)
}

// By the branches, or by both as digits.
fn minimize_known_branches(alloc: Global, node: &mut Node, seat: Seat) -> Result<bool, OutOfMemory>
    requires { count (children node.old) ≡ 3 }
    ensures tree { OnOk result (node.new ≡ unwrap_or (boolean.either (boolean.branches_written seat node.old) (boolean.number_written seat node.old)) node.old) }
    ensures said { IfOk result (λ changed. changed ≡ is_some (boolean.either (boolean.branches_written seat node.old) (boolean.number_written seat node.old))) }
{
    if minimize_branches(alloc, node, seat)? {
        return Ok(true);
    }
    minimize_number(alloc, node, seat)
}

// Of a conditional.
fn minimize_conditional(alloc: Global, node: &mut Node, seat: Seat) -> Result<bool, OutOfMemory>
    ensures tree { OnOk result (node.new ≡ unwrap_or (boolean.conditional_written seat node.old) node.old) }
    ensures said { IfOk result (λ changed. changed ≡ is_some (boolean.conditional_written seat node.old)) }
{
    if !is_conditional(node) {
        return Ok(false);
    }
    if minimize_truth(alloc, node, seat)? {
        return Ok(true);
    }
    minimize_known_branches(alloc, node, seat)
}

/// Where only the truth of an expression is asked, `!0` becomes `1`, `a && 1` becomes `a`, and
/// `a ? 1 : b` becomes `a || b`; where its value is, `a ? false : b` becomes `!a && b`,
/// `a ? true : false` `!!a`, and `a ? 0 : 1` `+!a`. The answer says whether it did; the only error
/// is that memory runs out, and then the expression is fit only to be dropped.
pub fn minimize_expression_in_boolean_context(
    alloc: Global,
    node: &mut Node,
    seat: Seat,
) -> Result<bool, OutOfMemory>
    ensures tree { OnOk result (node.new ≡ unwrap_or (boolean.written seat node.old) node.old) }
    ensures said { IfOk result (λ changed. changed ≡ is_some (boolean.written seat node.old)) }
{
    match node.shape() {
        Shape::UnaryExpression(UnaryOperator::LogicalNot) => Ok(minimize_digit(alloc, node, seat)),
        Shape::LogicalExpression(_) => Ok(minimize_logical(alloc, node, seat)),
        Shape::ConditionalExpression => minimize_conditional(alloc, node, seat),
        _ => Ok(false),
    }
}

/// The rows of booleans as a rule: of each expression.
pub struct MinimizeInBooleanContext;

impl<C: Context> Rule<C> for MinimizeInBooleanContext {
    ghost gives = { λ o q. Gives };

    ghost rests = { λ o q. Rests };

    ghost lighter = { λ o q. booleans_lighter };

    fn apply(
        &self,
        alloc: Global,
        node: &mut Node,
        place: Position,
        context: &mut C,
    ) -> Result<bool, OutOfMemory> {
        match place {
            Position::Expr(seat) => Ok(minimize_expression_in_boolean_context(alloc, node, seat)?),
            _ => Ok(false),
        }
    }
}
