//! Row 84: `for (i; t; u) { if (x) break; s }` becomes `for (i; t && !x; u) { s }`, and
//! `for (i; t; u) if (x) s; else break;` becomes `for (i; t && x; u) s`, each of which is lighter
//! in every place.

ghost use Rattle.std.specs.Prelude.{◌≡◌, ◌<◌, ◌&&◌, true, is_some, unwrap_or, IfOk, OnOk};
ghost use Rattle.mini_model.specs.Tree.{children, child_or_absent, count};
ghost use Rattle.mini_node.specs.Children.{part, rest_children, trees_of};
ghost use Rattle.mini_rows.specs.Lists.{are_unscoped as are_all_unscoped};
ghost use Rattle.mini_rows.specs.Loops as loops;
ghost use Rattle.mini_logic.specs.MinimizeForStatement as row;

use crate::statements::is_unscoped;
use mini_model::{LogicalOperator, OutOfMemory, Shape, UnaryOperator};
use mini_node::{
    Node, Nodes, block, discard, empty_statement, is_absent_part, is_block, is_if_statement,
    logical, negation, one, taken, three,
};
use std::alloc::Global;

// Whether a `break` or a `continue` stands in it, functions and static blocks aside.
#[cycle(leaping)]
fn may_leap(node: &Node) -> bool
    ensures { result ≡ loops.may_leap node.now }
{
    match node.shape() {
        Shape::BreakStatement | Shape::ContinueStatement => true,
        Shape::Function(_, _, _) | Shape::ArrowFunctionExpression(_) | Shape::StaticBlock => false,
        _ => any_may_leap(node.children(), 0),
    }
}

// Whether one stands in one of these nodes, from an index on.
#[cycle(leaping)]
fn any_may_leap(nodes: &Nodes, from: usize) -> bool
    ensures { result ≡ loops.any_may_leap (rest_children from nodes.now) }
{
    for at in from..nodes.len() {
        if may_leap(nodes.child(at)) {
            return true;
        }
    }
    false
}

// Whether it is there; of a `!` it is asked of its operand.
#[tactic(auto, using(crate::proofs::MinimizeForStatement::operand_there, crate::proofs::MinimizeForStatement::no_operand))]
fn is_there(node: &Node) -> bool
    ensures { result ≡ loops.is_there node.now }
{
    match node.shape() {
        Shape::UnaryExpression(UnaryOperator::LogicalNot) => {
            node.children().len() > 0 && is_there(node.child(0))
        }
        Shape::Absent | Shape::SwitchCase => false,
        _ => true,
    }
}

fn is_test(node: &Node) -> bool
    ensures { result ≡ loops.is_test node.now }
{
    is_there(node) && !may_leap(node)
}

// `break;`
fn leaves_now(node: &Node) -> bool
    ensures { result ≡ row.leaves_now node.now }
{
    matches!(node.shape(), Shape::BreakStatement)
        && node.is_bare(1)
        && is_absent_part(node.child(0))
}

// `if (x) break;`, with or without `else`
fn leaves_first(node: &Node) -> bool
    requires { count (children node.now) ≡ 3 }
    ensures { result ≡ row.leaves_first node.now }
{
    leaves_now(node.child(1)) && (is_absent_part(node.child(2)) || is_unscoped(node.child(2)))
}

// `if (x) s; else break;`
fn leaves_last(node: &Node) -> bool
    requires { count (children node.now) ≡ 3 }
    ensures { result ≡ row.leaves_last node.now }
{
    leaves_now(node.child(2)) && is_unscoped(node.child(1))
}

// Whether it is `if (x) break;`, with or without `else`, or `if (x) s; else break;`.
fn leaves(node: &Node) -> bool
    ensures { result ≡ row.leaves node.now }
{
    is_if_statement(node) && (leaves_first(node) || leaves_last(node)) && is_test(node.child(0))
}

fn are_unscoped(nodes: &[Node]) -> bool
    ensures { result ≡ are_all_unscoped (trees_of nodes.now) }
{
    match nodes {
        [first, rest @ ..] => is_unscoped(first) && are_unscoped(rest),
        [] => true,
    }
}

// Whether the first statement is one of them.
fn first_leaves(nodes: &Nodes) -> bool
    ensures { result ≡ row.leaves (child_or_absent nodes.now 0) }
{
    nodes.len() > 0 && leaves(nodes.child(0))
}

// A block that begins so.
fn leads(node: &Node) -> bool
    ensures kind { result ≡ row.leads node.now }
    ensures parts { result ≡ true → count (children node.now) ≡ 1 }
{
    is_block(node) && first_leaves(node.child(0).children())
}

// Whether it is a block that begins by leaving the loop, and in which no statement is scoped.
fn begins_leaving(node: &Node) -> bool
    ensures { result ≡ row.begins_leaving node.now }
{
    leads(node) && are_unscoped(node.child(0).parts())
}

// Whether a test may be written there.
fn may_test(node: &Node) -> bool
    ensures { result ≡ row.may_test node.now }
{
    is_absent_part(node) || is_there(node)
}

// A `for` in whose test another may be written.
fn tests(node: &Node) -> bool
    ensures kind { result ≡ (row.is_for node.now && row.may_test (part node.now 1)) }
    ensures parts { result ≡ true → count (children node.now) ≡ 4 }
{
    matches!(node.shape(), Shape::ForStatement) && node.is_bare(4) && may_test(node.child(1))
}

// `for (i; t; u) { if (x) break; s }`
#[tactic(auto, using(crate::proofs::MinimizeForStatement::tests_and))]
fn is_leaving_for(node: &Node) -> bool
    ensures { result ≡ row.is_leaving_for node.now }
{
    tests(node) && (leaves(node.child(3)) || begins_leaving(node.child(3)))
}

/// `for (i; t; u) { if (x) break; s }`, whatever the statements are behind the first, as the test
/// may take what leaves the loop.
#[tactic(auto, using(crate::proofs::MinimizeForStatement::tests_and))]
pub fn leads_from_block(node: &Node) -> bool
    ensures { result ≡ row.leads_from_block node.now }
{
    tests(node) && leads(node.child(3))
}

// What stands there, or `;`.
fn or_empty(alloc: Global, node: Node) -> Node
    ensures { result ≡ row.or_empty node }
{
    if is_absent_part(&node) {
        discard(node);
        return empty_statement(alloc);
    }
    node
}

// The test by which the loop goes on, and what is run then.
#[tactic(auto, using(crate::proofs::MinimizeForStatement::leaves_three))]
fn split_if(alloc: Global, node: Node) -> Result<(Node, Node), OutOfMemory>
    requires { row.leaves node ≡ true }
    ensures test { IfOk result (λ made. made.0 ≡ row.goes node) }
    ensures rest { IfOk result (λ made. made.1 ≡ row.runs node) }
{
    let leaves_where_true = leaves_first(&node);
    let (test, consequent, alternate) = three(node);
    if !leaves_where_true {
        discard(alternate);
        return Ok((test, consequent));
    }
    discard(consequent);
    let turned = negation(alloc, test)?;
    Ok((turned, or_empty(alloc, alternate)))
}

// The test by which the loop goes on and what is run then, of a block that begins by leaving it.
#[tactic(auto, using(crate::proofs::MinimizeForStatement::first_there, crate::proofs::MinimizeForStatement::leads_first, crate::proofs::Negations::with_twice, crate::proofs::Negations::count_with))]
fn split_block(alloc: Global, node: Node) -> Result<(Node, Node), OutOfMemory>
    requires { row.leads node ≡ true }
    ensures test { IfOk result (λ made. made.0 ≡ row.body_goes node) }
    ensures rest { IfOk result (λ made. made.1 ≡ row.body_runs node) }
{
    let mut statements = one(node).into_children();
    let (test, rest) = split_if(alloc, statements.take(0))?;
    discard(statements.replace(0, rest));
    Ok((test, block(alloc, statements)?))
}

// The test by which the loop goes on and what is run then, of a body that begins by leaving it.
#[tactic(auto, using(crate::proofs::MinimizeForStatement::block_leads, crate::proofs::MinimizeForStatement::plain_leaves))]
fn split_body(alloc: Global, node: Node) -> Result<(Node, Node), OutOfMemory>
    requires { row.body_leads node ≡ true }
    ensures test { IfOk result (λ made. made.0 ≡ row.body_goes node) }
    ensures rest { IfOk result (λ made. made.1 ≡ row.body_runs node) }
{
    if is_block(&node) {
        split_block(alloc, node)
    } else {
        split_if(alloc, node)
    }
}

// With another test beside it.
fn also(alloc: Global, test: Node, other: Node) -> Result<Node, OutOfMemory>
    ensures { IfOk result (λ made. made ≡ row.also test other) }
{
    if is_absent_part(&test) {
        discard(test);
        return Ok(other);
    }
    logical(alloc, LogicalOperator::And, test, other)
}

/// A loop whose body begins by leaving it, with that in its test. The only error is that memory
/// runs out.
#[tactic(auto, using(crate::proofs::MinimizeForStatement::leading_four, crate::proofs::MinimizeForStatement::leading_body))]
pub fn with_test(alloc: Global, node: Node) -> Result<Node, OutOfMemory>
    requires { row.is_leading_for node ≡ true }
    ensures { IfOk result (λ made. made ≡ row.with_test node) }
{
    let mut children = node.into_children();
    let (goes, runs) = split_body(alloc, children.take(3))?;
    let test = also(alloc, children.take(1), goes)?;
    discard(children.replace(3, runs));
    discard(children.replace(1, test));
    Ok(Node::new(Shape::ForStatement, children))
}

/// A body that begins by leaving the loop has that in the test of the loop, which is asked right
/// before it (ECMA-262, "ForBodyEvaluation"). The answer says whether it did; the only error is
/// that memory runs out, and then the statement is fit only to be dropped.
#[tactic(auto, using(crate::proofs::MinimizeForStatement::leaving_leads))]
pub fn minimize_for_statement(alloc: Global, node: &mut Node) -> Result<bool, OutOfMemory>
    ensures tree { OnOk result (node.new ≡ unwrap_or (row.written node.old) node.old) }
    ensures said { IfOk result (λ changed. changed ≡ is_some (row.written node.old)) }
{
    if !is_leaving_for(node) {
        return Ok(false);
    }
    *node = with_test(alloc, taken(alloc, node))?;
    Ok(true)
}
