//! Row 50: `!a && b;` becomes `a || b;`, and `!a || b;` `a && b;`, where that is lighter; so of
//! what a `for` begins with or does after each turn: `for (!a && b;;) c` becomes
//! `for (a || b;;) c`; of the last part of a sequence in one of these places: `a(), !b && c();`
//! becomes `a(), b || c();`; and of a part of any sequence but the last: `f((!a && b(), c))`
//! becomes `f((a || b(), c))`.

ghost use Rattle.std.specs.Prelude.{◌≡◌, ◌+◌, ◌<◌, true, is_some, unwrap_or, OnOk, IfOk, IfSome};
ghost use Rattle.mini_model.specs.declared.place.Position.TheVariants.{Expr};
ghost use Rattle.mini_model.specs.Position.{left_operand_seat as left_seat, statement_expression_seat as statement_seat};
ghost use Rattle.mini_model.specs.Tree.{children, count, child_or_absent, logical as logical_of};
ghost use Rattle.mini_model.specs.Weight.{capped, weight as weight_at};
ghost use Rattle.mini_model.specs.Terms.{turned as turned_operator};
ghost use Rattle.mini_node.specs.Children.{part as part_of};
ghost use Rattle.mini_node.specs.Kinds.{sequence as sequence_of};
ghost use Rattle.mini_tree.specs.Rule.{Applied};
ghost use Rattle.mini_logic.specs.Lighter.{de_morgan_lighter};
ghost use Rattle.mini_logic.specs.MinimizeForStatement.{is_for as is_it_for};
ghost use Rattle.mini_logic.specs.MinimizeNegation.{told_lightest};
ghost use Rattle.mini_logic.specs.DeMorganForVoidExpr.{turned_over as it_turned_over, turns as it_turns, written, begins_void as it_begins_void, turns_first as it_turns_first, turns_third as it_turns_third, turned_at as it_turned_at, is_turned as is_it_turned, turns_before_last, turned_part as it_turned_part, with_turned as it_with_turned, turns_last as it_turns_last, turned_last as it_turned_last, turns_void as it_turns_void, turned_void as it_turned_void, Gives, Rests};

use crate::rewrites::minimize_expression_in_boolean_context::is_and_or;
use crate::terms::own_weight;
use crate::whole::{lightest_negation, lightest_negation_weight};
use mini_model::{LogicalOperator, OutOfMemory, Position, Seat, Shape};
use mini_node::{
    Node, Nodes, discard, is_expression_statement, is_logical, is_sequence, logical,
    logical_operator, one, sequence, taken, two,
};
use mini_tree::{Context, Rule, expr_weight, seats};
use std::alloc::Global;

// `||` for `&&`, and `&&` for `||`
fn turned(operator: LogicalOperator) -> LogicalOperator
    ensures { result ≡ turned_operator operator }
{
    match operator {
        LogicalOperator::And => LogicalOperator::Or,
        LogicalOperator::Or => LogicalOperator::And,
        LogicalOperator::Coalesce => LogicalOperator::Coalesce,
    }
}

// The weight of the logical expression of this operator over the negation of its left side, as a
// statement's.
#[tactic(auto, using(crate::proofs::Weights::weight_logical))]
fn turned_weight(operator: LogicalOperator, left: &Node, right: &Node) -> u64
    ensures { result ≡ capped (weight_at (Expr statement_seat) (logical_of operator (told_lightest (left_seat operator statement_seat) left.now) right.now)) }
{
    let seat = seats::statement_expression();
    own_weight(operator, seat)
        .saturating_add(lightest_negation_weight(left, seats::left_operand(operator, seat)))
        .saturating_add(expr_weight(right, seats::right_operand(operator, seat)))
}

// Whether a logical expression of this operator is lighter under the other one, and its right side
// is none of the operator.
fn turns(operator: LogicalOperator, expression: &Node) -> bool
    requires { count (children expression.now) ≡ 2 }
    ensures { result ≡ it_turns operator expression.now }
{
    is_and_or(operator)
        && !is_logical(expression.child(1), operator)
        && turned_weight(turned(operator), expression.child(0), expression.child(1))
            < expr_weight(expression, seats::statement_expression())
}

// The left side negated under the other operator.
fn turned_over(
    alloc: Global,
    operator: LogicalOperator,
    expression: Node,
) -> Result<Node, OutOfMemory>
    ensures { IfOk result (λ w. w ≡ it_turned_over operator expression) }
{
    let (left, right) = two(expression);
    let other = turned(operator);
    let negated = lightest_negation(
        alloc,
        left,
        seats::left_operand(other, seats::statement_expression()),
    )?;
    logical(alloc, other, negated, right)
}

// Whether it turns where nobody asks its value.
fn is_turned(node: &Node) -> bool
    ensures { result ≡ is_it_turned node.now }
{
    match logical_operator(node) {
        Some(operator) => turns(operator, node),
        None => false,
    }
}

// `b || c()` of `!b && c()`
fn turned_part(alloc: Global, part: Node) -> Result<Node, OutOfMemory>
    ensures { IfOk result (λ w. w ≡ it_turned_part part) }
{
    match logical_operator(&part) {
        Some(operator) => turned_over(alloc, operator, part),
        None => Ok(part),
    }
}

// The sequence with the part at a place turned.
#[tactic(auto, using(crate::proofs::DeMorganParts::put_twice))]
fn with_turned(alloc: Global, node: Node, at: usize) -> Result<Node, OutOfMemory>
    requires { at < count (children (part_of node 0)) }
    ensures { IfOk result (λ w. w ≡ sequence_of (it_with_turned at (children (part_of node 0)))) }
{
    let mut parts = one(node).into_children();
    let part = parts.take(at);
    let turned = turned_part(alloc, part)?;
    discard(parts.replace(at, turned));
    sequence(alloc, parts)
}

// Whether it is a sequence of several parts of which the last turns.
fn turns_last(node: &Node) -> bool
    ensures kind { result ≡ it_turns_last node.now }
    ensures list { result ≡ true → 0 < count (children node.now) }
    ensures parts { result ≡ true → 0 < count (children (part_of node.now 0)) }
{
    if !is_sequence(node) {
        return false;
    }
    let parts = node.child(0).children();
    let count = parts.len();
    count > 1 && is_turned(parts.child(count - 1))
}

// `a(), b || c()` of `a(), !b && c()`
fn turned_last(alloc: Global, node: Node) -> Result<Node, OutOfMemory>
    requires list { 0 < count (children node) }
    requires parts { 0 < count (children (part_of node 0)) }
    ensures { IfOk result (λ w. w ≡ it_turned_last node) }
{
    let last = node.child(0).children().len() - 1;
    with_turned(alloc, node, last)
}

// Whether what nobody asks for turns, or its last part does.
fn turns_void(node: &Node) -> bool
    ensures { result ≡ it_turns_void node.now }
{
    turns_last(node) || is_turned(node)
}

// What is written for it then.
fn turned_void(alloc: Global, node: Node) -> Result<Node, OutOfMemory>
    ensures { IfOk result (λ w. w ≡ it_turned_void node) }
{
    if turns_last(&node) {
        turned_last(alloc, node)
    } else {
        turned_part(alloc, node)
    }
}

// Whether it is a `for`.
fn is_for(node: &Node) -> bool
    ensures kind { result ≡ is_it_for node.now }
    ensures parts { result ≡ true → count (children node.now) ≡ 4 }
{
    matches!(node.shape(), Shape::ForStatement) && node.is_bare(4)
}

// Whether what stands first in it is a value that nobody asks for.
fn begins_void(node: &Node) -> bool
    ensures kind { result ≡ it_begins_void node.now }
    ensures parts { result ≡ true → 0 < count (children node.now) }
{
    is_expression_statement(node) || is_for(node)
}

// Whether that turns.
fn turns_first(node: &Node) -> bool
    ensures kind { result ≡ it_turns_first node.now }
    ensures parts { result ≡ true → 0 < count (children node.now) }
{
    begins_void(node) && turns_void(node.child(0))
}

// Whether what a `for` does after each turn does.
fn turns_third(node: &Node) -> bool
    ensures kind { result ≡ it_turns_third node.now }
    ensures parts { result ≡ true → 2 < count (children node.now) }
{
    is_for(node) && turns_void(node.child(2))
}

// It turns.
fn turn(alloc: Global, part: &mut Node) -> Result<(), OutOfMemory>
    ensures { OnOk result (part.new ≡ it_turned_void part.old) }
{
    *part = turned_void(alloc, taken(alloc, part))?;
    Ok(())
}

// The part at a place turns.
#[tactic(auto, using(crate::proofs::DeMorganForVoidExpr::part_put))]
fn turn_at(alloc: Global, node: &mut Node, at: usize) -> Result<(), OutOfMemory>
    requires { at < count (children node.old) }
    ensures { OnOk result (node.new ≡ it_turned_at at node.old) }
{
    turn(alloc, node.children_mut().child_mut(at))
}

/// `!a && b;` becomes `a || b;`, and `!a || b;` `a && b;`, where that is lighter, and so do what a
/// `for` begins with and what it does after each turn, and of a sequence there its last part. The
/// answer says whether one did; the only error is that memory runs out, and then the statement is
/// fit only to be dropped.
pub fn de_morgan_for_void_expr(alloc: Global, node: &mut Node) -> Result<bool, OutOfMemory>
    ensures tree { OnOk result (node.new ≡ unwrap_or (written node.old) node.old) }
    ensures said { IfOk result (λ changed. changed ≡ is_some (written node.old)) }
{
    if turns_first(node) {
        turn_at(alloc, node, 0)?;
        return Ok(true);
    }
    if turns_third(node) {
        turn_at(alloc, node, 2)?;
        return Ok(true);
    }
    Ok(false)
}

// The place of the first part that turns, but for the last.
fn turned_at(nodes: &Nodes) -> Option<usize>
    ensures found { IfSome result (λ at. at + 1 < count nodes.now) }
    ensures read { IfSome result (λ at. is_it_turned (child_or_absent nodes.now at) ≡ true) }
    ensures any { is_some result ≡ turns_before_last nodes.now }
{
    for at in 0..nodes.len().saturating_sub(1) {
        if is_turned(nodes.child(at)) {
            return Some(at);
        }
    }
    None
}

/// `a(), !b && c(), d()` becomes `a(), b || c(), d()`, where that is lighter: the value of a part
/// but the last is asked by nobody (ECMA-262, "Comma Operator"). The answer says whether one did;
/// the only error is that memory runs out, and then the expression is fit only to be dropped.
pub fn de_morgan_for_part(alloc: Global, node: &mut Node, seat: Seat) -> Result<bool, OutOfMemory>
    ensures { IfOk result (λ changed. Applied Gives Rests (Position.Expr seat) node.old node.new changed) }
{
    if !is_sequence(node) {
        return Ok(false);
    }
    match turned_at(node.child(0).children()) {
        Some(at) => {
            *node = with_turned(alloc, taken(alloc, node), at)?;
            Ok(true)
        }
        None => Ok(false),
    }
}

/// Row 50 as a rule: of each statement, and of each sequence.
pub struct MinimizeVoid;

impl<C: Context> Rule<C> for MinimizeVoid {
    ghost gives = { λ o q. Gives };

    ghost rests = { λ o q. Rests };

    ghost lighter = { λ o q. de_morgan_lighter };

    fn apply(
        &self,
        alloc: Global,
        node: &mut Node,
        place: Position,
        context: &mut C,
    ) -> Result<bool, OutOfMemory> {
        match place {
            Position::Stmt(_) => Ok(de_morgan_for_void_expr(alloc, node)?),
            Position::Expr(seat) => Ok(de_morgan_for_part(alloc, node, seat)?),
            _ => Ok(false),
        }
    }
}
