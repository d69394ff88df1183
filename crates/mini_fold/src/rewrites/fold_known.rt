//! Rows 9, 12, 13, 15, 22 and 28, and 49 of an effect-free test: what is known of a part from
//! its text goes. `!0 && b` becomes `b`, `0 && b` becomes `0`, `!a ? b : b` becomes `b`,
//! `"abc".length` becomes `3`, the statement `void 0;` becomes `;`, `for (0;;) b` becomes
//! `for (;;) b`, and `typeof a === "string"` becomes `typeof a == "string"`. What is written is
//! lighter in every place.

ghost use Rattle.std.specs.Prelude.{◌≡◌, is_some, unwrap_or, OnOk, IfOk};
ghost use Rattle.mini_tree.specs.Rule.{Applied};
ghost use Rattle.mini_node.specs.Children.{part};
ghost use Rattle.mini_fold.specs.Lighter.{folds_lighter};
ghost use Rattle.mini_fold.specs.FoldKnown.{is_passed as passes_left, is_stopped as stops_right, is_idle_test as has_idle_test, chooses_nothing as chooses_it_nothing, branch_written, written, folded, does_nothing as does_it_nothing, expression_written, statement_written, Gives, Rests};

use crate::exports::names_exports;
use crate::rewrites::fold_static_member::fold_static_member;
use crate::rewrites::minimize_binary::minimize_binary;
use crate::rewrites::remove_idle_head::{has_idle_head, remove_idle_head};
use mini_held::takes_names_along;
use mini_model::{LogicalOperator, OutOfMemory, Position, Seat, Shape};
use mini_node::{
    Node, discard, empty_statement, is_conditional, is_expression_statement, is_same_tree,
    logical_operator, one, taken, two,
};
use mini_terms::{goes_on, has_no_effect, leaves_nothing, stops, suits, weighs};
use mini_tree::{Context, Rule};
use std::alloc::Global;

// Whether the left side goes.
fn is_passed(seat: Seat, operator: LogicalOperator, left: &Node, right: &Node) -> bool
    ensures { result ≡ passes_left seat operator left.now right.now }
{
    goes_on(operator, left)
        && has_no_effect(left)
        && leaves_nothing(left)
        && weighs(left)
        && suits(seat, right)
}

// Whether the right side goes.
fn is_stopped(seat: Seat, operator: LogicalOperator, left: &Node, right: &Node) -> bool
    ensures { result ≡ stops_right seat operator left.now right.now }
{
    stops(operator, left)
        && !names_exports(operator, right)
        && takes_names_along(right)
        && weighs(right)
        && suits(seat, left)
}

fn second_of(node: Node) -> Node
    ensures { result ≡ part node 1 }
{
    let (first, second) = two(node);
    discard(first);
    second
}

/// A logical expression one of whose sides is known to go becomes the other one. The answer says
/// whether it did.
pub fn fold_logical_expression(alloc: Global, node: &mut Node, seat: Seat) -> bool
    ensures tree { node.new ≡ unwrap_or (folded seat node.old) node.old }
    ensures said { result ≡ is_some (folded seat node.old) }
{
    let Some(operator) = logical_operator(node) else {
        return false;
    };
    if is_passed(seat, operator, node.child(0), node.child(1)) {
        *node = second_of(taken(alloc, node));
        return true;
    }
    if is_stopped(seat, operator, node.child(0), node.child(1)) {
        *node = one(taken(alloc, node));
        return true;
    }
    false
}

// Whether the test is effect-free, and both branches are the same.
fn is_idle_test(seat: Seat, test: &Node, consequent: &Node, alternate: &Node) -> bool
    ensures { result ≡ has_idle_test seat test.now consequent.now alternate.now }
{
    is_same_tree(consequent, alternate)
        && has_no_effect(test)
        && leaves_nothing(test)
        && weighs(test)
        && suits(seat, consequent)
}

// Whether a conditional has such a test.
fn chooses_nothing(node: &Node, seat: Seat) -> bool
    ensures { result ≡ chooses_it_nothing seat node.now }
{
    is_conditional(node) && is_idle_test(seat, node.child(0), node.child(1), node.child(2))
}

/// A conditional with an effect-free test and two equal branches becomes its branch: `!a ? b : b`
/// becomes `b`. The answer says whether it did.
pub fn fold_conditional(alloc: Global, node: &mut Node, seat: Seat) -> bool
    ensures tree { node.new ≡ unwrap_or (branch_written seat node.old) node.old }
    ensures said { result ≡ is_some (branch_written seat node.old) }
{
    if !chooses_nothing(node, seat) {
        return false;
    }
    *node = second_of(taken(alloc, node));
    true
}

/// What is known of a logical expression, of the sides of an equality, of a conditional or of a
/// text's length is folded. The answer says whether something was.
pub fn fold_expression(alloc: Global, node: &mut Node, seat: Seat) -> bool
    ensures tree { node.new ≡ unwrap_or (written seat node.old) node.old }
    ensures said { result ≡ is_some (written seat node.old) }
{
    match node.shape() {
        Shape::LogicalExpression(_) => fold_logical_expression(alloc, node, seat),
        Shape::BinaryExpression(_) => minimize_binary(alloc, node),
        Shape::ConditionalExpression => fold_conditional(alloc, node, seat),
        Shape::StaticMemberExpression(_) => fold_static_member(alloc, node, seat),
        _ => false,
    }
}

fn does_nothing(node: &Node) -> bool
    ensures { result ≡ does_it_nothing node.now }
{
    is_expression_statement(node) && has_no_effect(node.child(0)) && leaves_nothing(node.child(0))
}

/// An effect-free expression statement becomes empty. The answer says whether it did.
pub fn remove_unused_expression(alloc: Global, node: &mut Node) -> bool
    ensures tree { node.new ≡ unwrap_or (expression_written node.old) node.old }
    ensures said { result ≡ is_some (expression_written node.old) }
{
    if !does_nothing(node) {
        return false;
    }
    *node = empty_statement(alloc);
    true
}

/// An expression statement, or a part of the head of a `for`, goes where it does nothing. The answer
/// says whether one did.
pub fn fold_statement(alloc: Global, node: &mut Node) -> bool
    ensures tree { node.new ≡ unwrap_or (statement_written node.old) node.old }
    ensures said { result ≡ is_some (statement_written node.old) }
{
    match node.shape() {
        Shape::ExpressionStatement => remove_unused_expression(alloc, node),
        Shape::ForStatement => remove_idle_head(alloc, node),
        _ => false,
    }
}

/// Rows 9, 12, 13, 15, 22 and 28, and 49 of an effect-free test, as a rule: of each expression
/// and each statement.
pub struct FoldKnown;

impl<C: Context> Rule<C> for FoldKnown {
    ghost gives = { λ o q. Gives };

    ghost rests = { λ o q. Rests };

    ghost lighter = { λ o q. folds_lighter };

    #[tactic(auto, using(crate::proofs::KnownSides::applied, crate::proofs::KnownSides::statement_applied))]
    fn apply(
        &self,
        alloc: Global,
        node: &mut Node,
        place: Position,
        context: &mut C,
    ) -> Result<bool, OutOfMemory> {
        match place {
            Position::Expr(seat) => Ok(fold_expression(alloc, node, seat)),
            Position::Stmt(_) => Ok(fold_statement(alloc, node)),
            _ => Ok(false),
        }
    }
}
